//! The lines that say which named terminals show a string differently.

ghost use Rattle.std.specs.Prelude.{◌≡◌, ◌+◌, ◌≤◌, ◌++◌, length, map};
ghost use Rattle.arrayvec.specs.ArrayVec.{array_vec_len};
ghost use Rattle.sixel_report.specs.Differing.{differ_items, differ_status, end_items, ends_led, group_items};
ghost use Rattle.sixel_report.specs.Differing.{groups_led, is_like, others_of};
ghost use Rattle.sixel_differ.specs.Comparisons.{standing_in};
ghost use Rattle.sixel_report.specs.Texts.{column_and_row, group_line, same_line, spaced, terminal_name, members_in};
ghost use Rattle.sixel_report.specs.Texts.{unmodelled_line};
ghost use Rattle.sixel_report.specs.declared.item.Item.TheVariants.{Group as GroupItem};

use crate::item::{Item, Items};
use crate::lines::{Line, push_all, push_number};
use crate::task::Status;
use arrayvec::ArrayVec;
use sixel_differ::{Comparison, Standing};
use sixel_named_terminals::Named;

/// Some of the named terminals.
#[derive(Clone, Copy, Debug, PartialEq, Eq)]
pub struct Members {
    pub xterm: bool,
    pub mlterm: bool,
    pub foot: bool,
    pub konsole: bool,
}

/// Named terminals with equal screens.
#[derive(Clone, Copy, Debug, PartialEq, Eq)]
pub struct Group {
    /// The first of them. The order is xterm, mlterm, foot, konsole.
    pub leader: Named,
    /// The others.
    pub others: Members,
    /// The column and the row of the first pixel, row by row, that differs from the screen of the first group. The first
    /// group has none.
    pub pixel: Option<(u32, u32)>,
}

/// The name of a terminal, as lines have it.
pub fn terminal_name(named: Named) -> &'static str
    ensures text { result.now ≡ terminal_name named }
    ensures short { length result.now ≤ 7 }
{
    match named {
        Named::XTerm => "xterm",
        Named::MlTerm => "mlterm",
        Named::Foot => "foot",
        Named::Konsole => "konsole",
    }
}

/// The line of a group, at most 57 bytes: the names of its members, and the column and the row of its pixel if it has
/// one.
pub fn group_line(group: &Group) -> Line
    ensures { result.items ≡ group_line group.now }
{
    let mut line = ArrayVec::new();
    push_all(&mut line, terminal_name(group.leader).as_bytes());
    push_others(&mut line, group.others);
    push_column_and_row(&mut line, group.pixel);
    line.push(b'\n');
    line
}

/// The line of a terminal whose model ends at the event with this offset: its name, and the offset.
pub fn unmodelled_line(named: Named, place: u64) -> Line
    ensures { result.items ≡ unmodelled_line named place }
{
    let mut line = ArrayVec::new();
    push_all(&mut line, terminal_name(named).as_bytes());
    push_all(&mut line, b" unmodelled");
    push_number(&mut line, place);
    line.push(b'\n');
    line
}

/// The line of four equal screens: their width and their height.
pub fn same_line(width: u32, height: u32) -> Line
    ensures { result.items ≡ same_line width height }
{
    let mut line = ArrayVec::new();
    push_all(&mut line, b"same");
    push_number(&mut line, width as u64);
    push_number(&mut line, height as u64);
    line.push(b'\n');
    line
}

/// The names of these terminals, each after a space: at most 28 bytes.
fn push_others(line: &mut Line, others: Members)
    requires { array_vec_len line.old ≤ 7 }
    ensures items { line.new.items ≡ line.old.items ++ spaced (map terminal_name (members_in others)) }
    ensures len { array_vec_len line.new ≤ 33 }
{
    if others.xterm {
        push_all(line, b" xterm");
    }
    if others.mlterm {
        push_all(line, b" mlterm");
    }
    if others.foot {
        push_all(line, b" foot");
    }
    if others.konsole {
        push_all(line, b" konsole");
    }
}

/// The column and the row of a pixel, if there is one.
fn push_column_and_row(line: &mut Line, pixel: Option<(u32, u32)>)
    requires { array_vec_len line.old ≤ 33 }
    ensures items { line.new.items ≡ line.old.items ++ spaced (column_and_row pixel) }
    ensures len { array_vec_len line.new ≤ 75 }
{
    if let Some((x, y)) = pixel {
        push_number(line, x as u64);
        push_number(line, y as u64);
    }
}

/// What a comparison of screens of these sides says: that they are equal, or each group, and then each terminal whose
/// model ends.
pub fn differ_items(width: u32, height: u32, comparison: &Comparison) -> Items
    ensures items { result.items ≡ differ_items width height comparison.now }
    ensures few { array_vec_len result ≤ 8 }
{
    let mut items = ArrayVec::new();
    if comparison.is_same() {
        items.push(Item::Same { width, height });
        return items;
    }
    push_groups(&mut items, comparison);
    push_ends(&mut items, comparison);
    items
}

/// The status after a comparison.
pub fn differ_status(comparison: &Comparison) -> Status
    ensures { result ≡ differ_status comparison.now }
{
    if comparison.is_same() {
        Status::Done
    } else {
        Status::Differing
    }
}

/// Appends each group.
fn push_groups(items: &mut Items, comparison: &Comparison)
    requires { array_vec_len items.old ≤ 0 }
    ensures items { items.new.items ≡ items.old.items ++ group_items comparison.now }
    ensures few { array_vec_len items.new ≤ 4 }
{
    push_group(items, comparison, Named::XTerm);
    push_group(items, comparison, Named::MlTerm);
    push_group(items, comparison, Named::Foot);
    push_group(items, comparison, Named::Konsole);
}

/// Appends the group of this terminal, if it leads one.
fn push_group(items: &mut Items, comparison: &Comparison, named: Named)
    requires { array_vec_len items.old ≤ 3 }
    ensures items { items.new.items ≡ items.old.items
        ++ map GroupItem (groups_led comparison.now named (standing_in comparison.now named)) }
    ensures few { array_vec_len items.new ≤ array_vec_len items.old + 1 }
{
    let pixel = match comparison.standing(named) {
        Standing::First => None,
        Standing::Differs { x, y } => Some((x, y)),
        Standing::Like(_) | Standing::Unmodelled(_) => return,
    };
    items.push(Item::Group(Group {
        leader: named,
        others: others_of(comparison, named),
        pixel,
    }));
}

/// The terminals in the group that this one leads, but for itself.
fn others_of(comparison: &Comparison, leader: Named) -> Members
    ensures { result ≡ others_of comparison.now leader }
{
    Members {
        xterm: is_like(leader, comparison.xterm),
        mlterm: is_like(leader, comparison.mlterm),
        foot: is_like(leader, comparison.foot),
        konsole: is_like(leader, comparison.konsole),
    }
}

/// Whether a terminal that stands so is in the group that this one leads, behind it.
fn is_like(leader: Named, standing: Standing) -> bool
    ensures { result ≡ is_like leader standing }
{
    match standing {
        Standing::Like(other) => other == leader,
        _ => false,
    }
}

/// Appends each terminal whose model ends.
fn push_ends(items: &mut Items, comparison: &Comparison)
    requires { array_vec_len items.old ≤ 4 }
    ensures items { items.new.items ≡ items.old.items ++ end_items comparison.now }
    ensures few { array_vec_len items.new ≤ 8 }
{
    push_end(items, comparison, Named::XTerm);
    push_end(items, comparison, Named::MlTerm);
    push_end(items, comparison, Named::Foot);
    push_end(items, comparison, Named::Konsole);
}

/// Appends this terminal, if its model ends.
fn push_end(items: &mut Items, comparison: &Comparison, named: Named)
    requires { array_vec_len items.old ≤ 7 }
    ensures items { items.new.items ≡ items.old.items ++ ends_led named (standing_in comparison.now named) }
    ensures few { array_vec_len items.new ≤ array_vec_len items.old + 1 }
{
    if let Standing::Unmodelled(place) = comparison.standing(named) {
        items.push(Item::Unmodelled { named, place });
    }
}
