//! The grammar of a schema: from the tokens of a text to its tree.
#![tactic(auto)]

mod blocks;
mod class;
mod classing;
mod context;
mod files;
mod items;
pub mod laws;
mod list;
mod methods;
mod names;
mod on_heap;
mod options;
mod parsing;
mod piece;
mod pieces;
mod ranges;
mod reading;
mod statements;
mod steps;
mod tree;
mod words;

pub use list::Sequence;
pub use on_heap::OnHeap;
pub use parsing::{ParseFault, parse, parse_as};
pub use steps::{Steps, parse_counted, parse_counted_as};
pub use tree::{
    Aggregate, Atom, Behind, Block, Constant, Custom, CustomValue, Dotted, Enum, EnumItem, Extend,
    Extension, Extensions, Field, FieldType, File, Import, Item, Joined, MapField, Member, Message,
    Method, MethodEnd, MethodItem, MethodType, Modifier, Oneof, OneofItem, Option_, Package, Plain,
    Range, RangeEnd, Reference, Reserved, ReservedList, Separated, Service, ServiceItem, Setting,
    Settings, Signature, Signed, Syntax, UpTo, Value,
};
pub use words::{is_listed, may_name_value};
