// The calls of a window over a run of records, for other languages.
ghost use Rattle.demands.specs.WindowPromises.{KilnRecordPromise, KilnFiguresPromise};

use answers::WindowState;

// Adds a record to a window; `held` and `oldest` are the state that it is handed, and receive the new one.
#[unsafe(no_mangle)]
pub extern "C" fn kiln_add_record(
    window: &mut [i32],
    held: &mut usize,
    oldest: &mut usize,
    watts: i64,
) -> u8
    ensures { KilnRecordPromise window.old
        (record { held = held.old; oldest = oldest.old }) watts result
        (record { held = held.new; oldest = oldest.new }) window.new }
{
    let state = WindowState {
        held: *held,
        oldest: *oldest,
    };
    match window::add_record(window, state, watts) {
        Ok(next) => {
            *held = next.held;
            *oldest = next.oldest;
            0
        }
        Err(refusal) => refusal.number(),
    }
}

// The figures of the records held: `total` receives the total, `missing` 1 with none held and else 0, `least` and
// `greatest` these two, which are left as they were with none held.
#[unsafe(no_mangle)]
pub extern "C" fn kiln_window_figures(
    window: &[i32],
    held: usize,
    oldest: usize,
    total: &mut i64,
    missing: &mut u8,
    least: &mut i32,
    greatest: &mut i32,
) -> u8
    ensures { KilnFiguresPromise window.now (record { held = held; oldest = oldest }) result
        total.old total.new missing.old missing.new
        least.old least.new greatest.old greatest.new }
{
    match window::figures(window, WindowState { held, oldest }) {
        Ok(figures) => {
            *total = figures.total;
            *missing = figures.extremes.is_none() as u8;
            if let Some(extremes) = figures.extremes {
                *least = extremes.least;
                *greatest = extremes.greatest;
            }
            0
        }
        Err(refusal) => refusal.number(),
    }
}
