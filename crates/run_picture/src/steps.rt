//! The steps.

use crate::page::{CALL, Page};
use crate::svg::{
    Point, close_group, open_group, open_text, put_at, put_rect, put_shape, put_short, put_title,
    put_words,
};
use run_events::{Event, How, Lane, Run, Said, Sign};
use run_words::Text;

// So many letters are shown of a call.
const MOST: usize = 29;

/// Adds the steps, with the calls beside them.
pub(crate) fn put_steps(svg: &mut Text, run: &Run, page: &Page) {
    for (step, event) in run.events.iter().enumerate() {
        if page.has_step(step) {
            put_event(svg, page, step, event);
        }
    }
}

/// Adds the number of the step of a place.
pub(crate) fn put_step(svg: &mut Text, step: usize) {
    svg.number((step as u64).saturating_add(1));
}

fn put_event(svg: &mut Text, page: &Page, step: usize, event: &Event) {
    let at = Point::new(page.x(event.lane), page.y(step));
    open_text(svg, "number", Point::new(34, at.y).below(4));
    put_step(svg, step);
    svg.word("</text>");
    open_group(svg, "step");
    put_title(svg, event.title.as_str());
    put_sign(svg, at, event);
    close_group(svg);
    put_calls(svg, at, event);
}

// A step's shape: a box for what begins or ends a node, a triangle for an answer from cache, a square for another line
// and for a message, a diamond for what the node does by itself.
fn put_sign(svg: &mut Text, at: Point, event: &Event) {
    match event.sign {
        Sign::Restart => put_box(svg, at, "restart"),
        Sign::Stop => put_box(svg, at, "stop"),
        Sign::End => put_box(svg, at, "end"),
        Sign::Line if is_cached(event) => put_shape(svg, "hit", at, "m0 -6l6 11h-12z"),
        Sign::Line => put_shape(svg, "dot", at, "m-4 -4h8v8h-8z"),
        Sign::Message => put_shape(svg, "dot", at, "m-2 -2h4v4h-4z"),
        Sign::Own => put_shape(svg, "own", at, "m0 -5l5 5l-5 5l-5 -5z"),
    }
}

fn is_cached(event: &Event) -> bool {
    event.said.iter().any(|said| said.how == How::Cached)
}

fn put_box(svg: &mut Text, at: Point, word: &str) {
    put_rect(svg, "box", at.left(26).above(9), Point::new(52, 18));
    put_words(svg, "boxed", at.below(4), word);
}

// The calls of a step: left of a host's line, right of a server's.
fn put_calls(svg: &mut Text, at: Point, event: &Event) {
    let mut at = at;
    for said in event.said.iter() {
        put_call(svg, at, event, said);
        at = at.below(CALL);
    }
}

fn put_call(svg: &mut Text, at: Point, event: &Event, said: &Said) {
    let width = width_of(said.words.as_str());
    let gap = gap_of(event.sign);
    let corner = match event.lane {
        Lane::Host(_) => at.left(gap).left(width),
        Lane::Server(_) => at.right(gap),
    };
    open_group(svg, call_class(said.how));
    put_title(svg, said.words.as_str());
    svg.word("<rect rx=\"3\"");
    put_at(svg, "x", corner.x);
    put_at(svg, "y", corner.above(8).y);
    put_at(svg, "width", width);
    svg.word(" height=\"16\"/><text");
    put_at(svg, "x", corner.right(width / 2).x);
    put_at(svg, "y", corner.below(4).y);
    svg.word(">");
    put_short(svg, said.words.as_str(), MOST);
    svg.word("</text>");
    close_group(svg);
}

fn call_class(how: How) -> &'static str {
    match how {
        How::Begun => "call begun",
        How::Cached => "call cached",
        How::Answered => "call",
        How::Decided => "call decided",
    }
}

// How far beside the line the calls of a step are.
fn gap_of(sign: Sign) -> u64 {
    match sign {
        Sign::Restart | Sign::Stop | Sign::End => 32,
        Sign::Line | Sign::Message | Sign::Own => 10,
    }
}

// How wide words are, with the box around them.
fn width_of(words: &str) -> u64 {
    (words.len().min(MOST + 2) as u64)
        .saturating_mul(67)
        .saturating_div(10)
        .saturating_add(10)
}
