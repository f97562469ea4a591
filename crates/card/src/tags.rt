// The card's tags and the order of a file's tags: which may come, and what is wrong with one that may not.
ghost use Rattle.std.specs.Prelude.{◌≡◌};
ghost use Rattle.rules.specs.Form as form;
ghost use Rattle.card.specs.Tags.{group_at, number_of, wrong_of};

use crate::{Misplaced, Wrong};

// The card's tags come in groups, each whole: a group's first tag and its last.
// A tag stays the file's byte, and no enum: which may come goes by order, and the place of a timing is its tag less 5.
#[derive(Clone, Copy)]
struct Group(u8, u8);

const GROUPS: [Group; 5] = [
    Group(1, 18),
    Group(19, 22),
    Group(23, 23),
    Group(25, 25),
    Group(26, 26),
];

fn group_of(tag: u8) -> Option<Group>
    ensures { result ≡ group_at tag }
{
    GROUPS
        .iter()
        .copied()
        .find(|Group(first, last)| *first <= tag && tag <= *last)
}

#[tactic(auto, using(crate::proofs::Groups::of_card_by))]
pub fn of_card(tag: u8) -> bool
    ensures { result ≡ form.of_card tag }
{
    group_of(tag).is_some()
}

#[tactic(auto, unfolding(rules::specs::Form::of_trace, rules::specs::Form::of_entry))]
fn of_trace(tag: u8) -> bool
    ensures { result ≡ form.of_trace tag }
{
    matches!(tag, 32 | 33 | 34)
}

fn ends_group(tag: u8) -> bool
    ensures { result ≡ form.ends_group form.groups tag }
{
    group_of(tag).is_some_and(|Group(_, last)| tag == last)
}

fn begins_group(tag: u8) -> bool
    ensures { result ≡ form.begins_group form.groups tag }
{
    group_of(tag).is_some_and(|Group(first, _)| tag == first)
}

// Whether this tag may come behind the tag of the card's newest field, 0 before the first as in the rules' `last_tag`; `begun`: an entry has come.
// These go one by one, here and below: `may_come`, `wrong_tag` and `read_value` are public so.
#[tactic(auto, unfolding(rules::specs::Form::may_follow))]
pub fn may_come(begun: bool, last: u8, tag: u8) -> bool
    ensures { result ≡ form.may_follow begun last tag }
{
    if ends_group(last) {
        of_trace(tag) || (!begun && last < tag && begins_group(tag))
    } else {
        u16::from(tag) == u16::from(last) + 1
    }
}

#[tactic(auto, unfolding(crate::specs::Tags::number_of, rules::specs::Form::wrong_number, rules::specs::Form::known, rules::specs::Form::passed_by))]
fn misplaced(begun: bool, last: u8, tag: u8) -> Misplaced
    ensures { number_of result ≡ form.wrong_number begun last tag }
{
    if of_card(tag) && (begun || tag <= last) {
        Misplaced::Passed
    } else if of_card(tag) || of_trace(tag) {
        Misplaced::Early
    } else {
        Misplaced::Unknown
    }
}

#[tactic(auto, unfolding(rules::specs::Form::expected_after, rules::specs::Form::in_group))]
fn expected(last: u8, sleeps: bool, tag: u8) -> u8
    ensures { result ≡ form.expected_after last sleeps tag }
{
    if !ends_group(last) {
        last.saturating_add(1).min(33)
    } else if matches!(tag, 19..=22) && !sleeps {
        19
    } else {
        33
    }
}

// What is wrong with a tag that may not come there; `sleeps`: tags 19 to 22 were read.
#[tactic(auto, unfolding(rules::specs::Form::wrong_after, rules::specs::Checks::refusal, crate::specs::Tags::wrong_of))]
pub fn wrong_tag(begun: bool, last: u8, sleeps: bool, tag: u8) -> Wrong
    ensures { wrong_of result ≡ form.wrong_after begun last sleeps tag }
{
    Wrong {
        why: misplaced(begun, last, tag),
        expected: expected(last, sleeps, tag),
    }
}
