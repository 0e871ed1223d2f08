//! A drawing as a follower of the events that are read.

ghost use Rattle.sixel_terminal.specs.Drawings.{HasDrawnOn};

use crate::drawing::Drawing;
use sixel_grammar::{Command, Event, Follower, Placed};
use std::convert::Infallible;

impl Follower for Drawing {
    type Stop = Infallible;

    ghost has_taken = { HasDrawnOn };

    ghost may_stop = { λ first now stop seen. ⊥ };

    fn take(&mut self, placed: &Placed) -> Result<(), Infallible> {
        self.push(&placed.event);
        Ok(())
    }

    #[inline(always)]
    fn take_command(&mut self, _place: u64, command: Command) -> Result<(), Infallible> {
        self.push(&Event::Step(command));
        Ok(())
    }

    #[inline(always)]
    fn take_select(&mut self, _place: u64, register: u16) -> Result<(), Infallible> {
        self.push(&Event::Step(Command::Select(register)));
        Ok(())
    }

    #[inline(always)]
    fn take_repeat(&mut self, _place: u64, count: u16, bits: u8) -> Result<(), Infallible> {
        self.push(&Event::Step(Command::Repeat { count, bits }));
        Ok(())
    }

    fn take_stretch(&mut self, _place: u64, bytes: &[u8], count: usize) -> Result<(), Infallible> {
        self.push_stretch(&bytes[..count]);
        Ok(())
    }
}
