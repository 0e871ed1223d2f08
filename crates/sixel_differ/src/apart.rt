//! A follower that gets each event by a call.

use sixel_grammar::{Command, Follower, Placed};

/// Hands each event on by a call that isn't inlined.
///
/// So what the follower does isn't a part of the loop that reads. That stays small enough for the compiler to make a
/// copy of it for each kind of command. A return and a new line are told apart here, once for all followers.
#[derive(Drop)]
pub(crate) struct Apart<F> {
    pub follower: F,
}

impl<F: Follower> Follower for Apart<F> {
    type Stop = F::Stop;

    ghost has_taken = { λ first now seen. F.has_taken first.follower now.follower seen };

    ghost may_stop = { λ first now stop seen. F.may_stop first.follower now.follower stop seen };

    #[inline(never)]
    fn take(&mut self, placed: &Placed) -> Result<(), F::Stop> {
        self.follower.take(placed)
    }

    #[inline(never)]
    fn take_command(&mut self, place: u64, command: Command) -> Result<(), F::Stop> {
        match command {
            Command::CarriageReturn => self.follower.take_command(place, Command::CarriageReturn),
            Command::NextLine => self.follower.take_command(place, Command::NextLine),
            other => self.follower.take_command(place, other),
        }
    }

    #[inline(never)]
    fn take_select(&mut self, place: u64, register: u16) -> Result<(), F::Stop> {
        self.follower.take_select(place, register)
    }

    #[inline(never)]
    fn take_repeat(&mut self, place: u64, count: u16, bits: u8) -> Result<(), F::Stop> {
        self.follower.take_repeat(place, count, bits)
    }

    #[inline(never)]
    fn take_stretch(&mut self, place: u64, bytes: &[u8], count: usize) -> Result<(), F::Stop> {
        self.follower.take_stretch(place, bytes, count)
    }
}
