use formula::Formula;

// The count of a formula's steps, or the number and the place of a refusal.
fn answer(text: &[u8]) -> Result<usize, (u8, usize)> {
    let mut f = Formula::new();
    f.read(text).map_err(|e| (e.number(), e.place()))?;
    Ok(f.steps().len())
}

const ANSWERS: [(&[u8], Result<usize, (u8, usize)>); 40] = [
    (b"a", Ok(1)),
    (b"a&b|!a&c", Ok(8)),
    (b"!!!(a^b)&!1", Ok(9)),
    (b"a>b=c>d", Ok(7)),
    (b"(a>b)>c", Ok(5)),
    (b"((l))", Ok(1)),
    (b"", Err((3, 0))),
    (b"a&", Err((3, 2))),
    (b"aZ", Err((2, 1))),
    (b"a)Z", Err((3, 1))),
    (b"a>b>c", Err((3, 3))),
    (b"a=b=c", Err((3, 3))),
    (b"a=b>c=d", Err((3, 5))),
    (b"a>b|c>d", Err((3, 5))),
    (b"a(b", Err((3, 1))),
    (b"a!b", Err((3, 1))),
    (b"ab", Err((3, 1))),
    (b"(a", Err((3, 2))),
    (b"(a))", Err((3, 3))),
    (b"()", Err((3, 1))),
    (b"&a", Err((3, 0))),
    (b"!", Err((3, 1))),
    (b"a b", Err((2, 1))),
    (b"m", Err((2, 0))),
    (b"A", Err((2, 0))),
    (b"2", Err((2, 0))),
    (b"a,b", Err((2, 1))),
    (
        b"((((((((((((((((((((((((((((((((l))))))))))))))))))))))))))))))))",
        Ok(1),
    ),
    (
        b"(((((((((((((((((((((((((((((((((l)))))))))))))))))))))))))))))))))",
        Err((4, 32)),
    ),
    (
        b"a(((((((((((((((((((((((((((((((((l)))))))))))))))))))))))))))))))))",
        Err((3, 1)),
    ),
    (b"((((((((((((((((((((((((((((((((a(", Err((3, 33))),
    (b"((((((((((((((((((((((((((((((((!(", Err((4, 33))),
    (b"((((((((((((((((((((((((((((((((a&(", Err((4, 34))),
    (b"((((((((((((((((((((((((((((((((", Err((3, 32))),
    (b"((((((((((((((((((((((((((((((((Z", Err((2, 32))),
    (b"\x00", Err((2, 0))),
    (b"a\n", Err((2, 1))),
    (b"a\r\n", Err((2, 1))),
    (b"a&\x7f", Err((2, 2))),
    (b"a|\xff", Err((2, 2))),
];

#[test]
fn answers(rt: HostRuntime) {
    for (text, expected) in ANSWERS {
        assert_eq!(rt; answer(text), expected);
    }
}

const COUNTS: [(&[u8], u16); 19] = [
    (b"0", 0),
    (b"1", 4096),
    (b"a", 2048),
    (b"!l", 2048),
    (b"a&b", 1024),
    (b"a|b", 3072),
    (b"a^b", 2048),
    (b"a>b", 3072),
    (b"a=b", 2048),
    (b"a&b|!a&c", 2048),
    (b"a&!b|b&!c|c&!a", 3072),
    (b"a^b^c^d^e^f^g^h^i^j^k^l", 2048),
    (b"a&b&c&d&e&f&g&h&i&j&k&l", 1),
    (b"!a&b", 1024),
    (b"a|b&c", 2560),
    (b"a^b|c", 3072),
    (b"a|b>c", 2560),
    (b"a^b&c", 2048),
    (b"0=a>1", 0),
];

#[test]
fn counts(rt: HostRuntime) {
    let mut f = Formula::new();
    for (text, expected) in COUNTS {
        assert!(rt; f.read(text).is_ok());
        assert_eq!(rt; f.count_yes(), expected);
    }
}

// Bytes that are no characters of the notation, at the first, a middle and the last place.
const STRANGE: [u8; 6] = [0, 10, 13, 127, 128, 255];

#[test]
fn strange_bytes(rt: HostRuntime) {
    for b in STRANGE {
        assert_eq!(rt; answer(&[b, b'&', b'a']), Err((2, 0)));
        assert_eq!(rt; answer(&[b'a', b, b'a']), Err((2, 1)));
        assert_eq!(rt; answer(&[b'a', b'&', b]), Err((2, 2)));
    }
}

// A text of 4,096 bytes is read, however many `!` stand in a row; a longer one is refused before it is looked at.
#[test]
fn long_texts(rt: HostRuntime) {
    let mut text = [b'!'; 4096];
    assert_eq!(rt; answer(&text), Err((3, 4096)));
    text[4095] = b'a';
    assert_eq!(rt; answer(&text), Ok(4096));
    assert_eq!(rt; answer(&[b'a'; 4096]), Err((3, 1)));
    assert_eq!(rt; answer(&[b'('; 4096]), Err((4, 32)));
    assert_eq!(rt; answer(&[b')'; 4096]), Err((3, 0)));
    assert_eq!(rt; answer(&[b'!'; 4097]), Err((1, 4096)));
    assert_eq!(rt; answer(&[0; 4097]), Err((1, 4096)));
    assert_eq!(rt; answer(&[b'('; 100000]), Err((1, 4096)));
}

fn fill_with_noise(text: &mut [u8]) {
    let mut x: u32 = 1;
    for b in text.iter_mut() {
        x = x.wrapping_mul(1664525).wrapping_add(1013904223);
        *b = (x >> 24) as u8;
    }
}

// Noise is refused within its first bytes, and a refused text leaves the formula as it was.
#[test]
fn noise(rt: HostRuntime) {
    let mut f = Formula::new();
    assert!(rt; f.read(b"a&b").is_ok());
    let mut text = [0u8; 4096];
    fill_with_noise(&mut text);
    assert!(rt; f.read(&text).is_err());
    assert_eq!(rt; f.steps().len(), 3);
    assert_eq!(rt; f.count_yes(), 1024);
}
