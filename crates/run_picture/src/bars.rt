//! What lasts: the tokens that hosts hold, and the calls that they wait for.

use crate::choice::Choice;
use crate::page::Page;
use crate::steps::put_step;
use crate::svg::{Point, close_group, open_group, put_escaped, put_rect};
use run_events::{Hold, HoldKind, Lane, Run, Wait};
use run_words::Text;

/// Adds the tokens, right of their hosts' lines.
pub(crate) fn put_holds(svg: &mut Text, run: &Run, choice: &Choice<'_>, page: &Page) {
    for hold in run.holds.iter() {
        if choice.has_hold(hold) {
            put_hold(svg, page, hold);
        }
    }
}

fn put_hold(svg: &mut Text, page: &Page, hold: &Hold) {
    let from = page.y(hold.from);
    let until = until_of(page, hold.until);
    if from < until {
        let beside = hold.place.saturating_mul(9).saturating_add(9);
        let at = Point::new(page.x(Lane::Host(hold.host)), from).right(beside);
        open_group(svg, "token");
        svg.word("<title>");
        put_hold_title(svg, hold);
        svg.word("</title>");
        let size = Point::new(6, until.saturating_sub(from));
        put_rect(svg, hold_class(hold.kind, hold.is_update), at, size);
        close_group(svg);
    }
}

// How far from the top the step is where something ends, or the lines.
fn until_of(page: &Page, until: Option<usize>) -> u64 {
    match until {
        Some(step) => page.y(step),
        None => page.end,
    }
}

fn hold_class(kind: HoldKind, is_update: bool) -> &'static str {
    match (kind, is_update) {
        (HoldKind::Bytes, true) => "held bytes update",
        (HoldKind::Bytes, false) => "held bytes",
        (HoldKind::Status, true) => "held status update",
        (HoldKind::Status, false) => "held status",
        (HoldKind::Lock, true) => "held lock update",
        (HoldKind::Lock, false) => "held lock",
        (HoldKind::Opening, _) => "held opening",
    }
}

// What is held, from which step to which, and why it left.
fn put_hold_title(svg: &mut Text, hold: &Hold) {
    put_escaped(svg, hold.words.as_str());
    svg.word(", from step ");
    put_step(svg, hold.from);
    if let Some(until) = hold.until {
        svg.word(" to ");
        put_step(svg, until);
        svg.word(": ");
        put_escaped(svg, hold.why.as_str());
    }
}

/// Adds the calls that hosts wait for, on their lines.
pub(crate) fn put_waits(svg: &mut Text, run: &Run, choice: &Choice<'_>, page: &Page) {
    for wait in run.waits.iter() {
        if choice.has_wait(run, wait) {
            put_wait(svg, page, wait);
        }
    }
}

fn put_wait(svg: &mut Text, page: &Page, wait: &Wait) {
    let from = page.y(wait.from);
    let until = until_of(page, wait.until);
    if from < until {
        let at = Point::new(page.x(Lane::Host(wait.host)), from).left(4);
        open_group(svg, "waiting");
        svg.word("<title>");
        put_escaped(svg, wait.words.as_str());
        svg.word(", waits from step ");
        put_step(svg, wait.from);
        if let Some(until) = wait.until {
            svg.word(" to ");
            put_step(svg, until);
        }
        svg.word("</title>");
        put_rect(svg, "wait", at, Point::new(8, until.saturating_sub(from)));
        close_group(svg);
    }
}
