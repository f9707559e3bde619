//! Listing a message, and the others nested in it.

ghost use Rattle.std.specs.Prelude.{◌<◌, ◌≤◌, ◌++◌, length, [], ◌∷◌, OnOk};
ghost use Rattle.proto_tree.specs.File.{trees, member_tree};
ghost use Rattle.proto_names_outline.specs.FromTree.{members_in, member_uses};
ghost use Rattle.proto_names_outline.specs.Listing.{Adds, needs, path_at, read};
ghost use Rattle.proto_names_outline.specs.declared.listing.Above.TheVariants.{Below};
ghost use Rattle.proto_names_rules.specs.Skeleton.{Token};
ghost use Rattle.proto_names_rules.specs.Tree.{placed, all_placed, message as message_of};

use crate::enum_listing::list_enum;
use crate::extend_listing::list_extend;
use crate::field_listing::{list_field, list_map_field, list_oneof};
use crate::listing::{Above, Listing};
use crate::option_listing::list_setting;
use proto_base::NoMemory;
use proto_names_rules::Kind;
use proto_tree::{Member, Message};

/// A message, and the others nested in it.
#[cycle(messages)]
pub(crate) fn list_message<'a>(
    listing: &mut Listing<'a>,
    above: Above,
    message: &'a Message,
) -> Result<(), NoMemory>
    requires { needs above ≤ length listing.old.declared.items }
    ensures { OnOk result (Adds listing.old listing.new above
        (λ path. placed path (message_of message.now.name
        (members_in (trees member_tree message.now.members.items))))
        (λ path. member_uses path (path ++ Token message.now.name ∷ [])
        (trees member_tree message.now.members.items))) }
{
    let index = listing.name(above, message.name, Kind::Message)?;
    list_members(listing, above, index, &message.members)
}

#[cycle(messages)]
fn list_members<'a>(
    listing: &mut Listing<'a>,
    around: Above,
    scope: usize,
    members: &'a [Member],
) -> Result<(), NoMemory>
    requires around { needs around ≤ length listing.old.declared.items }
    requires within { scope < length listing.old.declared.items }
    ensures { OnOk result (Adds listing.old listing.new (Below scope)
        (λ path. all_placed path (members_in (trees member_tree members.now)))
        (λ path. member_uses (path_at (read listing.old.declared.items) around) path
        (trees member_tree members.now))) }
{
    for member in members {
        list_member(listing, around, scope, member)?;
    }
    Ok(())
}

#[cycle(messages)]
fn list_member<'a>(
    listing: &mut Listing<'a>,
    around: Above,
    scope: usize,
    member: &'a Member,
) -> Result<(), NoMemory>
    requires around { needs around ≤ length listing.old.declared.items }
    requires within { scope < length listing.old.declared.items }
    ensures { OnOk result (Adds listing.old listing.new (Below scope)
        (λ path. all_placed path (members_in (member_tree member.now)))
        (λ path. member_uses (path_at (read listing.old.declared.items) around) path
        (member_tree member.now))) }
{
    match member {
        Member::Field(field) => list_field(listing, scope, field),
        Member::MapField(field) => list_map_field(listing, scope, field),
        Member::Oneof(oneof) => list_oneof(listing, scope, oneof),
        Member::Message(message) => list_message(listing, Above::Below(scope), message),
        Member::Enum(names) => list_enum(listing, Above::Below(scope), names),
        Member::Extend(block) => list_extend(listing, Above::Below(scope), block),
        Member::Option(option) => list_setting(listing, around, &option.setting),
        Member::Reserved(_) => Ok(()),
        Member::Extensions(_) => Ok(()),
        Member::Empty(_) => Ok(()),
    }
}
