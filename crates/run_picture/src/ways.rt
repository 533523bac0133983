//! The messages.

use crate::choice::Choice;
use crate::page::Page;
use crate::steps::put_step;
use crate::svg::{Point, close_group, open_group, put_escaped, put_line, put_shape, put_short};
use run_events::{Arrow, Lane, Run};
use run_words::Text;

// A message is late that is taken so many steps after it was sent.
const LATE: usize = 8;

// So many letters are shown of what a message says.
const MOST: usize = 44;

// From an arrow's tip to the words beside it; at a host, beside whose line tokens stand; and at a server from the right,
// where calls stand.
const GAP: u64 = 16;

const TOKENS_GAP: u64 = 54;

const CALLS_GAP: u64 = 222;

/// Adds the messages.
pub(crate) fn put_ways(svg: &mut Text, run: &Run, choice: &Choice<'_>, page: &Page) {
    let mut before = 0u64;
    let mut step = 0usize;
    for arrow in run.arrows.iter() {
        if choice.has_arrow(arrow) {
            before = if arrow.from == step {
                before.saturating_add(1)
            } else {
                0
            };
            step = arrow.from;
            put_arrow(svg, page, arrow, before);
        }
    }
}

// A message, before which its step sent so many others.
fn put_arrow(svg: &mut Text, page: &Page, arrow: &Arrow, before: u64) {
    if arrow.taken.is_empty() && page.has_step(arrow.from) {
        put_lost(svg, page, arrow, before);
    }
    for (nth, step) in arrow.taken.iter().enumerate() {
        if page.has_step(arrow.from) || page.has_step(*step) {
            put_taken(svg, page, arrow, nth, *step);
        }
    }
}

// The way of a message to a step that took it.
fn put_taken(svg: &mut Text, page: &Page, arrow: &Arrow, nth: usize, step: usize) {
    let from = Point::new(page.x(arrow.sender), page.y(arrow.from));
    let line = Point::new(page.x(arrow.to), page.y(step));
    let to = if from.x < line.x {
        line.left(4)
    } else {
        line.right(4)
    };
    open_group(svg, "message");
    put_way_title(svg, arrow, Some(step));
    put_line(svg, way_class(arrow, nth, step), from, to);
    put_along(svg, from, to, gap_of(arrow, from, to), arrow.label.as_str());
    close_group(svg);
}

fn gap_of(arrow: &Arrow, from: Point, to: Point) -> u64 {
    match arrow.to {
        Lane::Host(_) => TOKENS_GAP,
        Lane::Server(_) if to.x < from.x => CALLS_GAP,
        Lane::Server(_) => GAP,
    }
}

fn way_class(arrow: &Arrow, nth: usize, step: usize) -> &'static str {
    if nth > 0 {
        "again"
    } else if step.saturating_sub(arrow.from) > LATE {
        "late"
    } else {
        "sent"
    }
}

// A lost message goes two fifths of the way, and ends in a cross.
fn put_lost(svg: &mut Text, page: &Page, arrow: &Arrow, before: u64) {
    let from = Point::new(page.x(arrow.sender), page.y(arrow.from));
    let nearer = from.x.saturating_mul(3);
    let farther = page.x(arrow.to).saturating_mul(2);
    let down = before.saturating_mul(13).saturating_add(14);
    let to = Point::new(nearer.saturating_add(farther) / 5, from.y).below(down);
    open_group(svg, "message");
    put_way_title(svg, arrow, None);
    put_line(svg, "lost", from, to);
    put_shape(svg, "cross", to, "m-5 -5l10 10m0 -10l-10 10");
    put_along(svg, from, to, GAP, arrow.label.as_str());
    close_group(svg);
}

// What a message says, with the steps that sent and took it.
fn put_way_title(svg: &mut Text, arrow: &Arrow, taken: Option<usize>) {
    svg.word("<title>");
    put_escaped(svg, arrow.label.as_str());
    put_escaped(svg, arrow.title.as_str());
    svg.word(", sent at step ");
    put_step(svg, arrow.from);
    match taken {
        Some(step) => {
            svg.word(", taken at step ");
            put_step(svg, step);
        }
        None => svg.word(", not taken"),
    }
    svg.word("</title>");
}

// Words above a line that goes downwards, along it, so far from its end.
fn put_along(svg: &mut Text, from: Point, to: Point, gap: u64, words: &str) {
    let is_right = from.x < to.x;
    let across = to.x.max(from.x).saturating_sub(to.x.min(from.x)).max(1);
    let down = to.y.saturating_sub(from.y);
    let at = if is_right {
        to.left(gap)
    } else {
        to.right(gap)
    };
    let up = (down.saturating_mul(gap) / across).saturating_add(4);
    svg.word("<text class=\"");
    svg.word(if is_right { "right" } else { "left" });
    svg.word("\" transform=\"matrix(1 ");
    svg.word(if is_right { "" } else { "-" });
    put_thousandths(svg, down.saturating_mul(1000) / across);
    svg.word(" 0 1 ");
    svg.number(at.x);
    svg.word(" ");
    svg.number(at.above(up).y);
    svg.word(")\">");
    put_short(svg, words, MOST);
    svg.word("</text>");
}

// Adds so many thousandths, as `0.093`.
fn put_thousandths(svg: &mut Text, number: u64) {
    svg.number(number / 1000);
    svg.word(".");
    svg.number(number / 100 % 10);
    svg.number(number / 10 % 10);
    svg.number(number % 10);
}
