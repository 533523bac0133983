//! The picture.

ghost use Rattle.std.specs.Prelude.{◌≡◌, ◌++◌, ℕ, List, IfOk, codes, string_bytes};

use crate::bars::{put_holds, put_waits};
use crate::choice::{Choice, Shown};
use crate::page::Page;
use crate::steps::put_steps;
use crate::style::{LEGEND, STYLE, TIP};
use crate::svg::{Point, open_text, put_at, put_escaped, put_line, put_rect};
use crate::ways::put_ways;
use run_events::{Lane, Run};
use run_words::Text;
use std::alloc::{AllocError, Global};

const OPENED: &str = "<svg xmlns=\"http://www.w3.org/2000/svg\"";

/// A picture of a run: an SVG that stands alone, whole to its last line; without memory there is none.
pub fn picture_of(alloc: Global, run: &Run, shown: Shown<'_>) -> Result<String, AllocError>
    ensures whole { IfOk result
        (λ picture. (front : List ℕ) × (string_bytes picture ≡ front ++ codes "</svg>\n")) }
{
    let choice = Choice::new(alloc, run, shown)?;
    let page = Page::new(alloc, run, &choice)?;
    let mut svg = Text::new(alloc);
    open(&mut svg, &page);
    put_lives(&mut svg, &page);
    put_holds(&mut svg, run, &choice, &page);
    put_waits(&mut svg, run, &choice, &page);
    put_ways(&mut svg, run, &choice, &page);
    put_steps(&mut svg, run, &page);
    put_names(&mut svg, &page);
    put_foot(&mut svg, run, shown, &page);
    close(svg)
}

// Ends a picture, whose memory may have run out.
fn close(svg: Text) -> Result<String, AllocError>
    ensures ends { IfOk result (λ picture. string_bytes picture ≡ string_bytes svg.text ++ codes "</svg>\n") }
{
    let mut svg = svg;
    svg.word("</svg>\n");
    svg.into_text()
}

fn open(svg: &mut Text, page: &Page) {
    svg.word(OPENED);
    put_at(svg, "width", page.width());
    put_at(svg, "height", page.height());
    svg.word(" viewBox=\"0 0 ");
    svg.number(page.width());
    svg.word(" ");
    svg.number(page.height());
    svg.word("\">\n");
    svg.word(STYLE);
    svg.word(TIP);
    let size = Point::new(page.width(), page.height());
    put_rect(svg, "page", Point::new(0, 0), size);
    svg.word("\n");
}

fn put_lives(svg: &mut Text, page: &Page) {
    for nth in 0..page.lanes() {
        let x = page.x(page.lane(nth));
        put_line(svg, "life", Point::new(x, 46), Point::new(x, page.end));
        svg.word("\n");
    }
}

fn put_names(svg: &mut Text, page: &Page) {
    for nth in 0..page.lanes() {
        let lane = page.lane(nth);
        let at = Point::new(page.x(lane), 20);
        put_rect(svg, "head", at.left(52), Point::new(104, 26));
        open_text(svg, "name", at.below(18));
        put_lane(svg, lane);
        svg.word("</text>\n");
    }
}

fn put_lane(svg: &mut Text, lane: Lane) {
    match lane {
        Lane::Host(0) => svg.word("setup c0"),
        Lane::Host(number) => {
            svg.word("host c");
            svg.number(number);
        }
        Lane::Server(number) => {
            svg.word("server s");
            svg.number(number);
        }
    }
}

// What is shown, and what the forms mean.
fn put_foot(svg: &mut Text, run: &Run, shown: Shown<'_>, page: &Page) {
    open_text(svg, "note", Point::new(12, page.end).below(26));
    put_shown(svg, run.events.len() as u64, shown);
    svg.word("</text>\n<g transform=\"translate(12 ");
    svg.number(page.end.saturating_add(50));
    svg.word(")\">\n");
    svg.word(LEGEND);
    svg.word("</g>\n");
}

fn put_shown(svg: &mut Text, count: u64, shown: Shown<'_>) {
    svg.word("steps ");
    svg.number(shown.from);
    svg.word(" to ");
    svg.number(shown.to.min(count));
    svg.word(" of ");
    svg.number(count);
    if let Some(host) = shown.host {
        svg.word(", of host c");
        svg.number(host);
    }
    if let Some(path) = shown.file {
        svg.word(", about ");
        put_escaped(svg, path);
    }
}
