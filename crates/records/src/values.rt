// What a program prints of a refusal beside its number and its name: the values.

#[derive(Clone, Copy)]
pub enum Values {
    None,
    One(usize),
    Two(usize, usize),
}
