//! Compares what the named terminals show of a sixel string, and writes a line for each group of equal screens.

ghost use Rattle.sixel_io.specs.Devices.{change};
ghost use Rattle.sixel_report.specs.declared.task.Task.TheVariants.{Differ};
ghost use Rattle.sixel_run.specs.LineTasks.{WritesItems};

use sixel_io::{PIECE, Sink, Source};
use sixel_model::Colour;
use sixel_report::{PutItem, RunFault, Status, differ_items, differ_status};
use sixel_sheet::read_views;
use std::alloc::Global;

/// Reads the whole input, and puts the items of the comparison. It doesn't flush.
pub fn differ<P: PutItem, S: Source, K: Sink>(
    alloc: Global,
    background: Colour,
    put: &P,
    input: &mut S,
    piece: &mut [u8; PIECE],
    output: &mut K,
) -> Result<Status, RunFault>
    ensures { WritesItems (Differ background) (P.written put.now) result
        (change (S.state input.old) (S.state input.new)) (change (K.state output.old) (K.state output.new)) }
{
    let views = read_views(alloc, background, input, piece)?;
    let comparison = views.compare();
    let items = differ_items(views.width, views.height, &comparison);
    match put.put_items(items.as_slice(), output) {
        Ok(()) => Ok(differ_status(&comparison)),
        Err(_) => Err(RunFault::Write),
    }
}
