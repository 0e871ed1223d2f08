//! The jobs that users wait for, each over made inputs. No call is made twice on one input.

ghost use Rattle.sixel_report.specs.Outputs.{HasSides};

use crate::dice::Dice;
use crate::pixels::Content;
use crate::session::{Files, Session};
use crate::stock::{Form, Stock, ppm, put_picture};
use crate::styles::Style;
use sixel_emulator_rules::Terminals;
use sixel_fit::Fitting;
use sixel_model::{Colour, Profile};
use sixel_report::{PictureFormat, Task};
use std::alloc::{AllocError, Global};

const NARROW: Profile = Profile::Registers16;

const WIDE: Profile = Profile::Registers256;

/// The columns and the bands of a large picture.
const COLUMNS: usize = 1600;

pub const BANDS: u64 = 200;

/// A workload, and how many of each of its inputs it has.
#[derive(Drop)]
pub struct Work {
    alloc: Global,
    dice: Dice,
    session: Session,
    rounds: u64,
    /// How many bands a large picture has: `BANDS`, or fewer in a small run.
    bands: u64,
}

impl Work {
    pub fn new(alloc: Global, seed: u64, rounds: u64, bands: u64) -> Work {
        Work {
            alloc,
            dice: Dice::new(seed),
            session: Session::new(alloc),
            rounds,
            bands,
        }
    }

    /// The digest of all so far.
    pub fn sum(&self) -> u64 {
        self.session.sum()
    }

    /// So many bands or pictures, or fewer in a small run; at least one.
    fn scaled(&self, count: u64) -> u64 {
        (count.saturating_mul(self.bands) / BANDS).max(1)
    }

    fn texts(&mut self, form: &Form) -> Result<Stock, AllocError> {
        Stock::texts(self.alloc, &mut self.dice, form)
    }

    /// Carries out the task over a picture of so many bands for each round.
    fn over_texts(&mut self, task: &Task, form: &Form, bands: u64) -> Result<(), AllocError>
        requires { HasSides task.now }
    {
        let stock = self.texts(form)?;
        let bands = self.scaled(bands);
        for _ in 0..self.rounds {
            let mut text = Vec::new(self.alloc);
            put_picture(&mut text, &mut self.dice, form, &stock, bands)?;
            self.session.run(task, text.as_slice());
        }
        Ok(())
    }

    /// Carries out the task over a PPM of so many bands for each round.
    fn over_ppms(
        &mut self,
        task: &Task,
        form: &Form,
        varies: bool,
        bands: u64,
    ) -> Result<(), AllocError>
        requires { HasSides task.now }
    {
        let stock = Stock::samples(self.alloc, &mut self.dice, form, varies)?;
        let bands = self.scaled(bands);
        for _ in 0..self.rounds {
            let text = ppm(self.alloc, &mut self.dice, form, &stock, bands)?;
            self.session.run(task, text.as_slice());
        }
        Ok(())
    }

    /// Carries out the task over small pictures as files, so many for each round.
    fn over_files(
        &mut self,
        task: &Task,
        form: &Form,
        bands: u64,
        count: u64,
    ) -> Result<(), AllocError>
        requires { HasSides task.now }
    {
        let stock = self.texts(form)?;
        let mut texts = Vec::new(self.alloc);
        for _ in 0..self.scaled(count).saturating_mul(self.rounds) {
            let mut text = Vec::new(self.alloc);
            put_picture(&mut text, &mut self.dice, form, &stock, bands)?;
            texts.push(text)?;
        }
        self.session.run_files(task, &Files { texts })
    }

    /// Carries out the task over a stream for each round: text, and now and then a picture of so many bands.
    fn over_log(
        &mut self,
        task: &Task,
        form: &Form,
        bands: u64,
        count: u64,
    ) -> Result<(), AllocError>
        requires { HasSides task.now }
    {
        let stock = self.texts(form)?;
        let count = self.scaled(count);
        for _ in 0..self.rounds {
            let mut text = Vec::new(self.alloc);
            for _ in 0..count {
                put_lines(&mut text, &mut self.dice)?;
                put_picture(&mut text, &mut self.dice, form, &stock, bands)?;
            }
            self.session.run(task, text.as_slice());
        }
        Ok(())
    }
}

/// Adds some lines of a log, a word of each in colour.
fn put_lines(text: &mut Vec<u8>, dice: &mut Dice) -> Result<(), AllocError> {
    for _ in 0..dice.below(12) {
        text.extend_from_slice(b"running the tests of a plot: \x1b[32mpassed\x1b[0m in 12 ms\r\n")?;
    }
    Ok(())
}

fn small(content: Content, registers: u64) -> Form {
    let mut form = Form::whole(content, Style::Registers, registers, 60);
    form.stock = 64;
    form
}

fn large(content: Content, style: Style, registers: u64) -> Form {
    Form::whole(content, style, registers, COLUMNS)
}

/// Checks of a test suite: many small files, and some large pictures.
pub fn checks(work: &mut Work) -> Result<(), AllocError> {
    let narrow = Task::Check {
        profile: NARROW,
        terminals: Terminals::none(),
    };
    let wide = Task::Check {
        profile: WIDE,
        terminals: Terminals::none(),
    };
    work.over_files(&narrow, &small(Content::Photo, 16), 7, 200)?;
    work.over_files(&narrow, &small(Content::Plot, 10), 7, 200)?;
    let photo = large(Content::Photo, Style::Registers, 16);
    work.over_texts(&narrow, &photo, BANDS)?;
    let plot = large(Content::Plot, Style::Registers, 10);
    work.over_texts(&narrow, &plot, BANDS)?;
    let lines = large(Content::Plot, Style::Defined, 10);
    work.over_texts(&narrow, &lines, BANDS)?;
    let colours = large(Content::Photo, Style::Registers, 256);
    work.over_texts(&wide, &colours, BANDS)
}

/// Surveys of pictures that break rules, and of some that don't.
pub fn surveys(work: &mut Work) -> Result<(), AllocError> {
    let narrow = Task::Survey {
        profile: NARROW,
        terminals: Terminals::none(),
    };
    let wide = Task::Survey {
        profile: WIDE,
        terminals: Terminals::none(),
    };
    let mut cut = large(Content::Photo, Style::Registers, 16);
    cut.cut = 2;
    cut.undefined = 5;
    work.over_texts(&narrow, &cut, BANDS)?;
    let mut holed = large(Content::Photo, Style::Registers, 256);
    holed.hole = 100;
    work.over_texts(&wide, &holed, BANDS / 2)?;
    let above = large(Content::Photo, Style::Registers, 64);
    work.over_texts(&narrow, &above, BANDS / 4)?;
    let plot = large(Content::Plot, Style::Defined, 10);
    work.over_texts(&narrow, &plot, BANDS)?;
    work.over_files(&narrow, &small(Content::Photo, 16), 7, 20)
}

fn mend(profile: Profile, background: Colour) -> Task
    ensures { HasSides result }
{
    Task::Mend {
        profile,
        background,
        showing: false,
        selects: false,
        fitting: for_none(),
    }
}

/// For no terminal.
fn for_none() -> Fitting {
    Fitting {
        terminals: Terminals::none(),
        pad: Colour::of_percentages(0, 0, 0),
    }
}

fn encode(profile: Profile) -> Task
    ensures { HasSides result }
{
    Task::Encode {
        profile,
        fitting: for_none(),
    }
}

/// Repairs of what programs wrote, and screens of it.
pub fn mends(work: &mut Work) -> Result<(), AllocError> {
    let rows = large(Content::Photo, Style::Rows, 16);
    let mut colours = large(Content::Photo, Style::Registers, 255);
    colours.hole = 100;
    let plot = large(Content::Plot, Style::Defined, 10);
    let background = Colour::of_percentages(100, 100, 100);
    let narrow = mend(NARROW, background);
    let wide = mend(WIDE, background);
    work.over_texts(&narrow, &rows, BANDS)?;
    work.over_texts(&narrow, &plot, BANDS)?;
    work.over_texts(&wide, &colours, BANDS)?;
    let show = Task::ShowBox {
        profile: WIDE,
        showing: false,
        fill: false,
        selects: false,
        format: PictureFormat::Ppm,
    };
    work.over_texts(&show, &colours, BANDS)
}

/// Pictures that a program ships: PPMs as sixel text, and sixel text as PPMs.
pub fn pictures(work: &mut Work) -> Result<(), AllocError> {
    let narrow = encode(NARROW);
    let wide = encode(WIDE);
    let photo = large(Content::Photo, Style::Registers, 16);
    let plot = large(Content::Plot, Style::Registers, 10);
    let colours = large(Content::Photo, Style::Registers, 250);
    work.over_ppms(&narrow, &photo, false, BANDS)?;
    work.over_ppms(&narrow, &plot, false, BANDS)?;
    work.over_ppms(&wide, &colours, false, BANDS)?;
    work.over_ppms(&wide, &colours, false, BANDS)?;
    work.over_texts(&render(NARROW), &photo, BANDS)?;
    work.over_texts(&render(NARROW), &plot, BANDS)?;
    work.over_texts(&render(WIDE), &colours, BANDS)
}

/// A render as a PPM.
fn render(profile: Profile) -> Task
    ensures { HasSides result }
{
    Task::Render {
        profile,
        format: PictureFormat::Ppm,
    }
}

/// Streams of a test suite, and lists.
pub fn logs(work: &mut Work) -> Result<(), AllocError> {
    let narrow = Task::Scan {
        profile: NARROW,
        eight_bit: false,
    };
    let wide = Task::Scan {
        profile: WIDE,
        eight_bit: false,
    };
    work.over_log(&narrow, &small(Content::Photo, 16), 7, 400)?;
    work.over_log(&narrow, &large(Content::Plot, Style::Registers, 10), 60, 4)?;
    work.over_log(&wide, &large(Content::Photo, Style::Registers, 250), 60, 2)?;
    work.over_texts(
        &Task::List,
        &large(Content::Photo, Style::Registers, 16),
        BANDS / 2,
    )?;
    work.over_texts(
        &Task::List,
        &large(Content::Plot, Style::Defined, 10),
        BANDS,
    )
}

/// Inputs that are rare and hard: a select or a return at each column, registers without order, samples that are
/// rounded alike, pictures of one column or three bands, paint far outside the box, and strings of one pixel.
pub fn awkward(work: &mut Work) -> Result<(), AllocError> {
    let check = Task::Check {
        profile: WIDE,
        terminals: Terminals::none(),
    };
    work.over_texts(
        &check,
        &large(Content::Columns, Style::Columns, 256),
        BANDS / 3,
    )?;
    work.over_texts(
        &check,
        &large(Content::Photo, Style::Returns, 16),
        BANDS / 3,
    )?;
    let mut outside = large(Content::Photo, Style::Registers, 16);
    outside.narrowed = 1590;
    work.over_texts(&check, &outside, BANDS / 3)?;
    let survey = Task::Survey {
        profile: WIDE,
        terminals: Terminals::none(),
    };
    work.over_texts(&survey, &outside, 10)?;
    let encode = encode(WIDE);
    let noise = Form::whole(Content::Noise, Style::Registers, 256, 800);
    work.over_ppms(&encode, &noise, false, 40)?;
    let varied = Form::whole(Content::Photo, Style::Registers, 200, 800);
    work.over_ppms(&encode, &varied, true, BANDS / 3)?;
    let mut column = Form::whole(Content::Noise, Style::Registers, 16, 1);
    column.stock = 64;
    work.over_ppms(&encode, &column, false, 341)?;
    let mut flat = Form::whole(Content::Noise, Style::Registers, 16, 2048);
    flat.stock = 64;
    work.over_ppms(&encode, &flat, false, 3)?;
    let scan = Task::Scan {
        profile: NARROW,
        eight_bit: true,
    };
    let mut pixel = Form::whole(Content::Noise, Style::Registers, 1, 1);
    pixel.stock = 2;
    work.over_log(&scan, &pixel, 1, 4000)
}
