//! Times a run over all columns, and a search for a blank pixel in a full plane, on each kind of plane.
#![tactic(auto)]

ghost use Rattle.std.specs.Prelude.{◌<◌};

use sixel_plane::{BandPlane, BytePlane, Cover, CoverPlane};
use std::time::CpuClock;

/// The width and the height of the planes, in pixels.
const SIDE: u32 = 2048;

/// How many bands of a plane have all six rows.
const WHOLE_BANDS: u32 = 341;

/// How often each plane is painted, and searched.
const ROUNDS: u32 = 100;

/// Paints a whole band, if the plane has it.
fn paint_band<P: Cover>(plane: &mut P, band: u32, register: u8)
    requires band { band < WHOLE_BANDS }
    requires register { register < 16 }
{
    if plane.width() >= SIDE && plane.height() >= 6 * band + 6 {
        plane.paint_run(0, band, SIDE, 63, register);
    }
}

/// Paints the two rows of the last band, if the plane has them.
fn paint_last_band<P: Cover>(plane: &mut P) {
    if plane.width() >= SIDE && plane.height() >= SIDE {
        plane.paint_run(0, WHOLE_BANDS, SIDE, 3, 5);
    }
}

fn paint_bands<P: Cover>(plane: &mut P, register: u8)
    requires { register < 16 }
{
    for band in 0..WHOLE_BANDS {
        paint_band(plane, band, register);
    }
}

/// The time of one run over a whole band, in nanoseconds. Each round has another register, so no round can be skipped.
fn time_runs<P: Cover, R: CpuClock>(rt: &R, plane: &mut P) -> Result<u128, anyhow::Error> {
    paint_bands(plane, 0);
    let start = rt.thread_cpu_time()?;
    for round in 0..ROUNDS {
        paint_bands(plane, (round % 16) as u8);
    }
    let spent = rt.thread_cpu_time()?.saturating_sub(start).as_nanos();
    Ok(spent / (ROUNDS * WHOLE_BANDS) as u128)
}

/// The time of one search in a full plane, in nanoseconds, and how many searches found nothing. Painting between two
/// searches keeps the compiler from merging them.
fn time_searches<P: Cover, R: CpuClock>(
    rt: &R,
    plane: &mut P,
) -> Result<(u128, u32), anyhow::Error> {
    let mut full: u32 = 0;
    let start = rt.thread_cpu_time()?;
    for _ in 0..ROUNDS {
        paint_last_band(plane);
        if plane.first_blank().is_none() {
            full = full.wrapping_add(1);
        }
    }
    let spent = rt.thread_cpu_time()?.saturating_sub(start).as_nanos();
    Ok((spent / ROUNDS as u128, full))
}

/// Prints how many searches found nothing, and on standard error the times.
fn measure<P: Cover>(rt: &HostRuntime, name: &str) -> Result<(), anyhow::Error> {
    let mut plane = P::blank(rt.alloc(), SIDE, SIDE)?;
    let run = time_runs(rt, &mut plane)?;
    let (search, full) = time_searches(rt, &mut plane)?;
    println!(rt; "{name}: {full} searches found no blank pixel")?;
    eprintln!(rt; "{name}: a run {run} ns, a search {search} ns")?;
    Ok(())
}

fn main(rt: HostRuntime) -> Result<(), anyhow::Error> {
    measure::<BytePlane>(&rt, "byte plane")?;
    measure::<BandPlane>(&rt, "band plane")?;
    measure::<CoverPlane>(&rt, "cover plane")
}
