//! `-` among the names: standard input.

ghost use Rattle.std.specs.Prelude.{◌≡◌, count_by, map};
ghost use Rattle.std.specs.List.{list_any};
ghost use Rattle.std.specs.String.{string_bytes};
ghost use Rattle.sixel_io.specs.Devices.{change};
ghost use Rattle.sixel_report.specs.Exits.{IsPut};
ghost use Rattle.sixel_program.specs.Files.{is_dash, named_twice, names_input_twice, reads_input};

use sixel_io::{Sink, put_all};
use sixel_report::{Request, Task};

/// Whether one of the names is `-`.
fn names_input(names: &[String]) -> bool
    ensures { result ≡ list_any is_dash (map string_bytes names.now) }
{
    for name in names {
        if name.as_str() == "-" {
            return true;
        }
    }
    false
}

/// Whether the request reads standard input.
pub fn reads_input(request: &Request) -> bool
    ensures { result ≡ reads_input request.now.task (map string_bytes request.now.files.items) }
{
    match (request.task, request.files.as_slice()) {
        (_, []) => true,
        (
            Task::Check { .. } | Task::Survey { .. } | Task::Scan { .. } | Task::Differ { .. },
            names,
        ) => names_input(names),
        (_, [name, ..]) => name.as_str() == "-",
    }
}

/// How many of the names are `-`.
fn count_inputs(names: &[String]) -> usize
    ensures { result ≡ count_by is_dash (map string_bytes names.now) }
{
    names.iter().filter(|name| name.as_str() == "-").count()
}

/// Whether the request reads standard input twice.
pub fn names_input_twice(request: &Request) -> bool
    ensures { result ≡ names_input_twice request.now.task (map string_bytes request.now.files.items) }
{
    match request.task {
        Task::Check { .. } | Task::Survey { .. } | Task::Scan { .. } | Task::Differ { .. } => {
            count_inputs(request.files.as_slice()) > 1
        }
        _ => false,
    }
}

/// Says that standard input is named twice, and then what each usage error ends with.
pub fn put_named_twice<E: Sink>(errors: &mut E)
    ensures { IsPut named_twice (change (E.state errors.old) (E.state errors.new)) }
{
    let _ = put_all(
        errors,
        b"sixel: standard input is named twice\n\nFor more information, try '--help'.\n",
    );
}
