use product::Product;
use std::process::Abort;
use std::test::Fail;

struct Example {
    named: u16,
    sign: u16,
    number: u32,
    letters: &'static [u8],
}

// Masks have option a at bit 11 and option l at bit 0.
const EXAMPLES: [Example; 9] = [
    Example {
        named: 0,
        sign: 0,
        number: 0,
        letters: b"",
    },
    Example {
        named: 0x001,
        sign: 0x000,
        number: 1,
        letters: b"!l",
    },
    Example {
        named: 0x001,
        sign: 0x001,
        number: 2,
        letters: b"l",
    },
    Example {
        named: 0xC00,
        sign: 0x400,
        number: 295245,
        letters: b"!ab",
    },
    Example {
        named: 0xC00,
        sign: 0x800,
        number: 413343,
        letters: b"a!b",
    },
    Example {
        named: 0x600,
        sign: 0x600,
        number: 157464,
        letters: b"bc",
    },
    Example {
        named: 0xA00,
        sign: 0x200,
        number: 216513,
        letters: b"!ac",
    },
    Example {
        named: 0xFFF,
        sign: 0x000,
        number: 265720,
        letters: b"!a!b!c!d!e!f!g!h!i!j!k!l",
    },
    Example {
        named: 0xFFF,
        sign: 0xFFF,
        number: 531440,
        letters: b"abcdefghijkl",
    },
];

fn check_example(rt: &impl Abort, e: &Example) -> Result<(), Fail> {
    let Ok(p) = Product::new(e.named, e.sign) else {
        return Err(Fail::new("no product"));
    };
    assert_eq!(rt; p.number(), e.number);
    assert_eq!(rt; p.length(), e.named.count_ones());
    let mut out = [b'#'; 30];
    match p.letters(&mut out) {
        Ok(n) => {
            assert!(rt; n <= 29);
            assert!(rt; &out[0..n] == e.letters);
            assert_eq!(rt; out[n], b'#');
            Ok(())
        }
        Err(_) => Err(Fail::new("too short")),
    }
}

#[test]
fn examples(rt: HostRuntime) -> Result<(), Fail> {
    for e in &EXAMPLES {
        check_example(&rt, e)?;
    }
    Ok(())
}

// Bits above the twelve, and a sign without its name.
const REFUSED: [(u16, u16); 6] = [
    (0x1000, 0),
    (0xFFFF, 0),
    (0, 1),
    (0x800, 0xC00),
    (0x7FF, 0x800),
    (0xFFF, 0x1FFF),
];

#[test]
fn no_products(rt: HostRuntime) -> Result<(), Fail> {
    for (named, sign) in REFUSED {
        match Product::new(named, sign) {
            Ok(_) => return Err(Fail::new("a product")),
            Err(e) => {
                assert_eq!(rt; e.number(), 5);
                assert_eq!(rt; e.place(), 0);
            }
        }
    }
    Ok(())
}

// An output that is one byte too short keeps its bytes.
#[test]
fn short_output(rt: HostRuntime) -> Result<(), Fail> {
    let Ok(p) = Product::new(0xC00, 0x400) else {
        return Err(Fail::new("no product"));
    };
    let mut out = [b'#'; 2];
    match p.letters(&mut out) {
        Ok(_) => return Err(Fail::new("it fits")),
        Err(e) => {
            assert_eq!(rt; e.number(), 15);
            assert_eq!(rt; e.place(), 0);
        }
    }
    assert_eq!(rt; out, [b'#'; 2]);
    Ok(())
}

// a!b is met by the versions with a and without b.
#[test]
fn meets(rt: HostRuntime) -> Result<(), Fail> {
    let Ok(p) = Product::new(0xC00, 0x800) else {
        return Err(Fail::new("no product"));
    };
    assert!(rt; p.meets(0x800));
    assert!(rt; p.meets(0xBFF));
    assert!(rt; p.meets(0xF800));
    assert!(rt; !p.meets(0xC00));
    assert!(rt; !p.meets(0x3FF));
    Ok(())
}
