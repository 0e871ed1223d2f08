//! How what a check, a survey or a scan says is written.

ghost use Rattle.std.specs.Prelude.{◌≡◌, ◌*◌, ◌+◌, ◌≤◌, ◌++◌, flat_map, length};
ghost use Rattle.std.specs.List.{concat};
ghost use Rattle.arrayvec.specs.ArrayVec.{array_vec_len};
ghost use Rattle.sixel_io.specs.Devices.{Writes};
ghost use Rattle.sixel_report.specs.declared.item.Item.{Item as AnItem};
ghost use Rattle.sixel_report.specs.Texts.{Text, item_line};

use crate::item::{Item, item_line};
use arrayvec::ArrayVec;
use sixel_io::{DeviceFault, Sink, put_all};

/// How each item is written: as a line, after the name of a file, ...
pub trait PutItem {
    /// What is written for an item.
    ghost written: { Self → AnItem → Text };

    /// Writes what is to be written for the item, or on an `Err` a prefix of it. It doesn't flush.
    fn put_item<K: Sink>(&self, item: &Item, out: &mut K) -> Result<(), DeviceFault>
        ensures { Writes result (K.state out.old) (K.state out.new) (written self.now item.now) };

    /// Writes what is to be written for these items, at most 25 of them, one after another.
    fn put_items<K: Sink>(&self, items: &[Item], out: &mut K) -> Result<(), DeviceFault>
        requires { length items.now ≤ 25 }
        ensures { Writes result (K.state out.old) (K.state out.new) (flat_map (written self.now) items.now) };
}

/// A line for each item, several of them in one piece.
#[derive(Clone, Copy)]
pub struct Plain;

impl PutItem for Plain {
    ghost written = { λ _ item. item_line item };

    fn put_item<K: Sink>(&self, item: &Item, out: &mut K) -> Result<(), DeviceFault> {
        put_all(out, item_line(item).as_slice())
    }

    fn put_items<K: Sink>(&self, items: &[Item], out: &mut K) -> Result<(), DeviceFault> {
        put_all(out, joined(items).as_slice())
    }
}

/// Room for the lines of 25 items.
type Joined = ArrayVec<u8, 2925>;

/// The lines of the items, one after another.
fn joined(items: &[Item]) -> Joined
    requires { length items.now ≤ 25 }
    ensures { result.items ≡ flat_map item_line items.now }
{
    let mut text = ArrayVec::new();
    for said in items {
        push_line(&mut text, said);
    }
    text
}

/// Appends the line of an item.
fn push_line(text: &mut Joined, item: &Item)
    requires { array_vec_len text.old + 117 ≤ 2925 }
    ensures items { text.new.items ≡ text.old.items ++ item_line item.now }
    ensures len { array_vec_len text.new ≤ array_vec_len text.old + 117 }
{
    let _ = text.try_extend_from_slice(item_line(item).as_slice());
}
