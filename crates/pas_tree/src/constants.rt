//! Names in a row, and constants (6.3).

use crate::operators::Sign;

/// Names with commas between them.
#[derive(Drop)]
pub struct Names {
    pub first: u32,
    pub others: Vec<NextName>,
}

/// A comma and the name after it.
#[derive(Drop)]
pub struct NextName {
    pub comma: u32,
    pub name: u32,
}

/// A constant: a number or a name, perhaps after a sign, or a string (6.3).
#[derive(Drop)]
pub enum Constant {
    Number(Option<Sign>, u32),
    Name(Option<Sign>, u32),
    Text(u32),
}

/// Constants with commas between them.
#[derive(Drop)]
pub struct Constants {
    pub first: Constant,
    pub others: Vec<NextConstant>,
}

/// A comma and the constant after it.
#[derive(Drop)]
pub struct NextConstant {
    pub comma: u32,
    pub constant: Constant,
}
