//! Finds the box that a document declares.

ghost use Rattle.std.specs.Prelude.{◌≡◌, ◌∷◌, [], option_map};
ghost use Rattle.std.specs.Option.{option_or};
ghost use Rattle.sixel_model.specs.Events.{raster_of};
ghost use Rattle.sixel_show.specs.Boxes.{HasFound, box_in};

use sixel_grammar::{Command, Event, Follower, Placed};
use std::convert::Infallible;

/// What looks for the box that the events of a document declare. The first one counts.
#[derive(Debug, Drop)]
pub struct BoxFinder {
    /// Its width and its height.
    pub found: Option<(u16, u16)>,
}

impl BoxFinder {
    /// Notes the box that the event declares, unless one is found.
    fn look_at(&mut self, event: &Event)
        ensures { self.new.found ≡ option_or self.old.found (box_in (event.now ∷ [])) }
    {
        self.found = self.found.or(box_in_raster(event));
    }
}

impl Follower for BoxFinder {
    type Stop = Infallible;

    ghost has_taken = { HasFound };

    ghost may_stop = { λ first now stop seen. ⊥ };

    fn take(&mut self, placed: &Placed) -> Result<(), Infallible> {
        self.look_at(&placed.event);
        Ok(())
    }

    fn take_command(&mut self, _place: u64, command: Command) -> Result<(), Infallible> {
        self.look_at(&Event::Step(command));
        Ok(())
    }

    fn take_select(&mut self, _place: u64, _register: u16) -> Result<(), Infallible> {
        Ok(())
    }

    fn take_repeat(&mut self, _place: u64, _count: u16, _bits: u8) -> Result<(), Infallible> {
        Ok(())
    }

    fn take_stretch(
        &mut self,
        _place: u64,
        _bytes: &[u8],
        _count: usize,
    ) -> Result<(), Infallible> {
        Ok(())
    }
}

/// The box of raster attributes: its width and its height.
fn box_in_raster(event: &Event) -> Option<(u16, u16)>
    ensures { result ≡ option_map (λ a. (a.width, a.height)) (raster_of event.now) }
{
    match event {
        Event::Step(Command::Raster { width, height, .. }) => Some((*width, *height)),
        _ => None,
    }
}
