// What a product says of one option.
#[derive(Clone, Copy, PartialEq, Eq, Debug)]
pub enum Word {
    Absent,
    Refused,
    Wanted,
}
