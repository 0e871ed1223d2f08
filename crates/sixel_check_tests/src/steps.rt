//! A checker that gets one event at a time.

ghost use Rattle.std.specs.Prelude.{ℕ, List, IfOk, OnOk};
ghost use Rattle.sixel_grammar.specs.declared.command.Placed.{Placed as PlacedValue};
ghost use Rattle.sixel_judge.specs.Standing.{StandsAfter};

use sixel_check::{Checker, Outcome};
use sixel_grammar::{Command, Event, InputFault, Placed, read_all};
use sixel_io::SliceSource;
use sixel_model::Profile;
use sixel_plane::{BandPlane, BytePlane, Cover};
use std::alloc::Global;
use std::test::Fail;

/// Pushes an event that may come next. If an allocation fails, nothing has changed, and the event is pushed again.
fn push_next<P: Cover>(checker: &mut Checker<P>, placed: &Placed) -> Result<(), Fail>
    requires { (registers : ℕ) × (seen : List PlacedValue) × StandsAfter registers checker.old seen }
    ensures { OnOk result ((registers : ℕ) × (seen : List PlacedValue) × StandsAfter registers checker.new seen) }
{
    if !checker.expects(&placed.event) || !placed.event.is_spellable() {
        return Err(Fail::from("an event that may not come"));
    }
    if checker.push(placed).is_err() {
        checker.push(placed)?;
    }
    Ok(())
}

/// A checker that has seen these events.
fn pushed<P: Cover>(alloc: Global, events: &[Placed]) -> Result<Checker<P>, Fail>
    ensures { IfOk result (λ checker. (registers : ℕ) × (seen : List PlacedValue)
        × StandsAfter registers checker seen) }
{
    let mut checker: Checker<P> = Checker::new(alloc, Profile::Registers16);
    for placed in events {
        push_next(&mut checker, placed)?;
    }
    Ok(checker)
}

/// The events of the smallest portable picture.
fn smallest(alloc: Global) -> Result<Vec<Placed>, InputFault> {
    let picture = b"\x1bPq\"1;1;1;1#0;2;0;0;0#0@\x1b\\";
    read_all(alloc, &mut SliceSource::new(picture, 64, None))
}

/// Whether the checker expects a start exactly if `start` says so, and commands and an end exactly if `more` says so. A
/// command may break a rule.
fn expects_so<P: Cover>(checker: &Checker<P>, start: bool, more: bool) -> bool {
    let parameters = Default::default();
    let begin = Event::Start {
        eight: true,
        parameters,
    };
    let zero = Command::Repeat { count: 0, bits: 1 };
    [
        Event::Step(Command::NextLine),
        Event::Step(Command::Select(16)),
        Event::Step(zero),
        Event::Finish { eight: false },
        Event::Finish { eight: true },
    ]
    .iter()
    .all(|event| checker.expects(event) == more)
        && checker.expects(&begin) == start
}

/// A start comes first and never again. Then commands of any kind come, and at any time an end; after it nothing comes.
#[test]
fn each_kind_of_event_is_expected_in_its_turn(rt: HostRuntime) -> Result<(), Fail> {
    let events = smallest(rt.alloc()).or(Err("a document"))?;
    for count in 0..=events.len() {
        let checker: Checker<BytePlane> = pushed(rt.alloc(), &events[..count])?;
        let whole = count == 6;
        assert_eq!(rt; checker.is_whole(), whole, "{count}");
        assert!(rt;
            expects_so(&checker, count == 0, count > 0 && !whole),
            "{count}"
        );
    }
    Ok(())
}

/// Whether the picture of one pixel is portable. A plane of bytes is one allocation and a plane of bands two;
/// `rt try --test --fail-alloc N` makes each fail in turn, and then the push is repeated.
fn is_portable<P: Cover>(alloc: Global) -> Result<bool, Fail> {
    let events = smallest(alloc).or_else(|_| smallest(alloc));
    let events = events.or(Err("a document"))?;
    let checker: Checker<P> = pushed(alloc, &events)?;
    if !checker.is_whole() {
        return Ok(false);
    }
    let portable = Outcome::Portable {
        width: 1,
        height: 1,
    };
    Ok(checker.outcome() == portable)
}

#[test]
fn a_refused_push_is_repeated(rt: HostRuntime) -> Result<(), Fail> {
    assert!(rt; is_portable::<BytePlane>(rt.alloc())?);
    assert!(rt; is_portable::<BandPlane>(rt.alloc())?);
    Ok(())
}
