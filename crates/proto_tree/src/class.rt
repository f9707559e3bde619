//! Tokens as the grammar sees them.

ghost use Rattle.std.specs.Prelude.{◌≡◌};
ghost use Rattle.proto_tree.specs.Classes.{is_word as word, is_value_name as value_name, is_label as label, is_text as text, is_element as element, is_atom as atom, is_parenthesis as parenthesis, is_modifier as modifier, fits};

/// What the grammar knows of a token.
#[derive(Clone, Copy)]
pub enum Class {
    Syntax,
    Import,
    Public,
    Package,
    Option,
    Message,
    Enum,
    Service,
    Rpc,
    Returns,
    Stream,
    Oneof,
    Map,
    Reserved,
    Extensions,
    Extend,
    Optional,
    Required,
    Repeated,
    To,
    Max,
    /// The word of a scalar type.
    Scalar,
    /// A listed word that no statement has.
    OtherListed,
    /// A word that is not listed.
    Name,
    Number,
    /// A string whose value is `proto2` or `proto3`.
    ProtoText,
    OtherText,
    /// `{`
    Open,
    /// `}`
    Close,
    LeftBracket,
    RightBracket,
    LeftParenthesis,
    RightParenthesis,
    Less,
    Greater,
    Semicolon,
    Comma,
    Equals,
    Dot,
    Minus,
    Colon,
    /// `(` where it may stand before the name of an option, too.
    NameParenthesis,
    /// No token of a text.
    Other,
    /// The word `weak`.
    Weak,
    /// The word `weak` where it may stand behind `import`, too.
    ImportWeak,
}

/// A token: its class and its index.
#[derive(Clone, Copy)]
pub struct Lexeme {
    pub class: Class,
    pub at: u32,
}

/// What the grammar may want at a place.
#[derive(Clone, Copy)]
pub enum Expected {
    One(Class),
    /// A word of a reference.
    Word,
    /// A word that names what is declared.
    Name,
    /// A word that names an option.
    OptionName,
    /// A word that is an option's value.
    Constant,
    /// A word that may name an enum value.
    ValueName,
    Label,
    Text,
    /// A token of a value in braces: any but a word, a brace, `:` and `[`.
    Atom,
    /// The same behind a `:`: it may be a `[`, too.
    Element,
    /// No token.
    Nothing,
    /// `(`
    Parenthesis,
    /// What may stand behind `import`: `public`, or `weak` where it may.
    Modifier,
}

impl Class {
    fn is_word(self) -> bool
        ensures { result ≡ word self }
    {
        match self {
            Class::Number | Class::ProtoText | Class::OtherText => false,
            Class::Open | Class::Close | Class::LeftBracket | Class::RightBracket => false,
            Class::LeftParenthesis | Class::RightParenthesis => false,
            Class::Less | Class::Greater | Class::Semicolon | Class::Comma => false,
            Class::Equals | Class::Dot | Class::Minus | Class::Colon => false,
            Class::NameParenthesis | Class::Other => false,
            _ => true,
        }
    }

    fn is_value_name(self) -> bool
        ensures { result ≡ value_name self }
    {
        match self {
            Class::Option | Class::Reserved => false,
            class => class.is_word(),
        }
    }

    fn is_label(self) -> bool
        ensures { result ≡ label self }
    {
        match self {
            Class::Optional | Class::Required | Class::Repeated => true,
            _ => false,
        }
    }

    fn is_text(self) -> bool
        ensures { result ≡ text self }
    {
        match self {
            Class::ProtoText | Class::OtherText => true,
            _ => false,
        }
    }

    fn is_parenthesis(self) -> bool
        ensures { result ≡ parenthesis self }
    {
        match self {
            Class::LeftParenthesis | Class::NameParenthesis => true,
            _ => false,
        }
    }

    fn is_modifier(self) -> bool
        ensures { result ≡ modifier self }
    {
        match self {
            Class::Public | Class::ImportWeak => true,
            _ => false,
        }
    }

    fn is_element(self) -> bool
        ensures { result ≡ element self }
    {
        match self {
            Class::Open | Class::Close | Class::Colon => false,
            class => !class.is_word(),
        }
    }

    fn is_atom(self) -> bool
        ensures { result ≡ atom self }
    {
        match self {
            Class::LeftBracket => false,
            class => class.is_element(),
        }
    }
}

impl Expected {
    /// Whether a token of this class is what is wanted.
    pub fn fits(self, class: Class) -> bool
        ensures { result ≡ fits self class }
    {
        match self {
            Expected::One(wanted) => wanted as u8 == class as u8,
            Expected::Word | Expected::Name | Expected::OptionName | Expected::Constant =>
                class.is_word(),
            Expected::ValueName => class.is_value_name(),
            Expected::Label => class.is_label(),
            Expected::Text => class.is_text(),
            Expected::Atom => class.is_atom(),
            Expected::Element => class.is_element(),
            Expected::Nothing => false,
            Expected::Parenthesis => class.is_parenthesis(),
            Expected::Modifier => class.is_modifier(),
        }
    }
}
