//! What is read of a file: texts, strings, numbers, its language and version, and what its
//! references mean.

ghost use Rattle.std.specs.Prelude.{◌≡◌, ◌<◌, ◌==◌, AllPairs, Some, map, find, option_map, IfOk};
ghost use Rattle.std.specs.String.{string_bytes};
ghost use Rattle.proto_ast.specs.Numbers.{past};
ghost use Rattle.proto_ast.specs.Scenes.{number_at, signed_value, meant_by, enum_meant, text, value};
ghost use Rattle.proto_ast.specs.Views.{enum_of, meant_of};

use crate::numbers::number_of;
use crate::value_names::ValueNames;
use proto_base::{NoMemory, Profile};
use proto_files::Words;
use proto_tree::{Reference, Signed};
use std::alloc::Global;
use std::marker::Model;

/// What is read of an enum: whether its file is proto3, whether it has a first value that is not 0,
/// and the names of its values.
#[derive(Clone, Copy)]
pub struct EnumAt<'a> {
    pub is_proto3: bool,
    pub starts_past_zero: bool,
    pub values: &'a ValueNames<'a>,
}

/// What a reference means, by its first token: a full name, and the enum of that name, if any.
#[derive(Clone, Copy)]
pub struct MeantAt<'a> {
    pub token: u32,
    pub name: &'a str,
    pub enumeration: Option<EnumAt<'a>>,
}

/// A file as checks and descriptors read it.
#[derive(Drop)]
pub struct Scene<'a> {
    words: Words<'a>,
    profile: Profile,
    is_proto3: bool,
    means: Vec<MeantAt<'a>>,
}

impl<'a> Model for Scene<'a> {
    ghost use Rattle.std.specs.Prelude.{◌<◌, AllPairs, Some, map};
    ghost use Rattle.proto_ast.specs.Numbers.{past};
    ghost use Rattle.proto_ast.specs.Scenes.{Scene as SceneOf};
    ghost use Rattle.proto_ast.specs.Views.{meant_of};

    ghost Value = { SceneOf };

    ghost view = { λ s. record {
      lexemes = s.words;
      cap = Some past;
      profile = s.profile;
      is_proto3 = s.is_proto3;
      means = map meant_of s.means.items;
    } };

    ghost invariant = { λ s. AllPairs (λ m n. m.token < n.token) s.means.items };
}

fn meant_at<'a>(means: &[MeantAt<'a>], token: u32) -> Option<MeantAt<'a>>
    requires { AllPairs (λ m n. m.token < n.token) means.now }
    ensures { option_map meant_of result ≡ find (λ m. m.token == token) (map meant_of means.now) }
{
    match means.binary_search_by_key(&token, |m| m.token) {
        Ok(place) => Some(means[place]),
        Err(_) => None,
    }
}

impl<'a> Scene<'a> {
    /// A file by the texts of its tokens, its language and version, and what its references mean,
    /// in the order of their first tokens.
    pub fn new(
        words: Words<'a>,
        profile: Profile,
        is_proto3: bool,
        means: Vec<MeantAt<'a>>,
    ) -> Scene<'a>
        requires rising { AllPairs (λ m n. m.token < n.token) means.items }
        ensures { result ≡ record {
          lexemes = words.entry;
          cap = Some past;
          profile = profile;
          is_proto3 = is_proto3;
          means = map meant_of means.entry.items;
        } }
    {
        Scene {
            words,
            profile,
            is_proto3,
            means,
        }
    }

    /// The text of the token with this index; empty where there is none.
    pub fn text(&self, token: u32) -> &'a str
        ensures { result.now ≡ text self.now token }
    {
        self.words.get(token)
    }

    /// The value of the string token with this index; empty for another token.
    pub fn string(&self, alloc: Global, token: u32) -> Result<String, NoMemory>
        ensures { IfOk result (λ s. string_bytes s ≡ value self.now token) }
    {
        let value = self.words.string(alloc, token)?;
        match value {
            Some(found) => Ok(found),
            None => Ok(String::new(alloc)),
        }
    }

    /// What the number token with this index stands for, or 2^64 where that is less.
    pub fn number(&self, token: u32) -> i128
        ensures { result ≡ number_at self.now token }
    {
        number_of(self.words.get(token)) as i128
    }

    /// The same of a number with its sign.
    pub fn signed_number(&self, signed: Signed) -> i128
        ensures { result ≡ signed_value self.now signed }
    {
        let number = self.number(signed.number);
        if signed.minus.is_some() {
            -number
        } else {
            number
        }
    }

    /// The language that the file is of.
    pub fn profile(&self) -> Profile
        ensures { result ≡ self.now.profile }
    {
        self.profile
    }

    /// Whether the file is proto3.
    pub fn is_proto3(&self) -> bool
        ensures { result ≡ self.now.is_proto3 }
    {
        self.is_proto3
    }

    /// What a reference means; none for one that is not the file's.
    pub fn meaning(&self, reference: &Reference) -> Option<MeantAt<'a>>
        ensures { option_map meant_of result ≡ meant_by self.now reference.now }
    {
        let first = reference.dot.unwrap_or(reference.words.first);
        meant_at(&self.means, first)
    }

    /// The enum that a reference means; none where it means none.
    pub fn enum_meant(&self, reference: &Reference) -> Option<EnumAt<'a>>
        ensures { option_map enum_of result ≡ enum_meant self.now reference.now }
    {
        self.meaning(reference)?.enumeration
    }
}
