//! The kinds of items that are counted.

#[derive(Clone, Copy)]
pub enum Kind {
    Message,
    Enum,
    Service,
    Import,
    Option,
}
