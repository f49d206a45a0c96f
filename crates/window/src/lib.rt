// The last hours of a firing: a window over a run of minute records. A record is added, and the records held are told
// by their total, least and greatest.
#![tactic(auto)]

ghost use Rattle.std.specs.Prelude.{◌≡◌, ◌+◌, ◌*◌, ◌≤◌, ◌<◌, nat_abs, ◌+ℤ◌, length};
ghost use Rattle.surface.specs.Window.{window_cause, record_cause, place_after, new_state, records_held, figures_of};
ghost use Rattle.surface.specs.Window.{folded, present};
ghost use Rattle.surface.specs.Window as Window;
ghost use Rattle.answers.specs.Answers.{state_told};
ghost use Rattle.answers.specs.Refusals.{cause_of};
ghost use Rattle.demands.specs.WindowPromises.{RecordPromise, FiguresPromise};

use answers::{Extremes, Figures, Refusal, WindowState};

// 22 for a window of so many places in this state.
fn window_cause(places: usize, state: WindowState) -> Result<(), Refusal>
    ensures { cause_of result ≡ window_cause places (state_told state) }
{
    if places < 1 {
        return Err(Refusal::Window);
    }
    if 1440 < places {
        return Err(Refusal::Window);
    }
    if places < state.held {
        return Err(Refusal::Window);
    }
    if state.oldest < places {
        Ok(())
    } else {
        Err(Refusal::Window)
    }
}

// 22, then 23, of a new record.
fn record_cause(places: usize, state: WindowState, watts: i64) -> Result<(), Refusal>
    ensures { cause_of result ≡ record_cause places (state_told state) watts }
{
    window_cause(places, state)?;
    if coefficients::past(watts, 32000) {
        return Err(Refusal::Record);
    }
    Ok(())
}

// The place that is k places after p: place 0 follows the last place.
fn place_after(places: usize, p: usize, k: usize) -> usize
    requires { (places ≤ 1440) × (p < places) × (k ≤ places) }
    ensures { (result ≡ place_after places p k) × (result < places) }
{
    let at = p + k;
    if at < places {
        return at;
    }
    at - places
}

// The state after one more record.
fn new_state(places: usize, state: WindowState) -> WindowState
    requires { window_cause places (state_told state) ≡ 0 }
    ensures { state_told result ≡ new_state places (state_told state) }
{
    let held = state.held;
    let oldest = state.oldest;
    if held < places {
        return WindowState {
            held: held + 1,
            oldest,
        };
    }
    WindowState {
        held,
        oldest: place_after(places, oldest, 1),
    }
}

// Adds a record to a window: it takes the place after the newest held, or the oldest's when the window is full.
pub fn add_record(
    window: &mut [i32],
    state: WindowState,
    watts: i64,
) -> Result<WindowState, Refusal>
    ensures { RecordPromise window.old (state_told state) watts result window.new }
{
    let places = window.len();
    record_cause(places, state, watts)?;
    let at = place_after(places, state.oldest, state.held);
    window[at] = watts as i32;
    Ok(new_state(places, state))
}

// The lesser of two numbers.
fn lesser(x: i32, y: i32) -> i32
    ensures { result ≡ Window.lesser x y }
{
    x.min(y)
}

// The greater of two numbers.
fn greater(x: i32, y: i32) -> i32
    ensures { result ≡ Window.greater x y }
{
    x.max(y)
}

// The total, least and greatest of some records.
#[derive(Clone, Copy)]
struct Sums {
    total: i64,
    least: i32,
    greatest: i32,
}

// Those that were found before, and those of a part of the window, taken together.
fn over(part: &[i32], before: Sums) -> Sums
    requires { (length part.now ≤ 1440) × (nat_abs before.total ≤ 1441 * 2147483648) }
    ensures { (result.total ≡ folded ◌+ℤ◌ before.total part.now)
        × (result.least ≡ folded Window.lesser before.least part.now)
        × (result.greatest ≡ folded Window.greater before.greatest part.now)
        × (nat_abs result.total ≤ nat_abs before.total + length part.now * 2147483648) }
{
    let mut total = before.total;
    let mut least = before.least;
    let mut greatest = before.greatest;
    for x in part {
        total += *x as i64;
        least = lesser(least, *x);
        greatest = greater(greatest, *x);
    }
    Sums {
        total,
        least,
        greatest,
    }
}

// Those of the records held, of which there are some: one pass, over one part of the window or over two.
fn of_held(window: &[i32], held: usize, oldest: usize) -> Sums
    requires { (length window.now ≤ 1440) × (held ≤ length window.now) × (oldest < length window.now)
        × (0 < held) }
    ensures { figures_of (records_held window.now (record { held = held; oldest = oldest }))
        ≡ record { total = result.total; least = present result.least; greatest = present result.greatest } }
{
    let record = window[oldest];
    let first = Sums {
        total: record as i64,
        least: record,
        greatest: record,
    };
    let second = oldest + 1;
    let end = oldest + held;
    let places = window.len();
    if end <= places {
        return over(&window[second..end], first);
    }
    let wrapped = end - places;
    let later = over(&window[second..], first);
    over(&window[0..wrapped], later)
}

// The total, least and greatest of the records held; with none held the last two are missing.
pub fn figures(window: &[i32], state: WindowState) -> Result<Figures, Refusal>
    ensures { FiguresPromise window.now (state_told state) result }
{
    window_cause(window.len(), state)?;
    if state.held == 0 {
        return Ok(Figures {
            total: 0,
            extremes: None,
        });
    }
    let f = of_held(window, state.held, state.oldest);
    let extremes = Extremes {
        least: f.least,
        greatest: f.greatest,
    };
    Ok(Figures {
        total: f.total,
        extremes: Some(extremes),
    })
}
