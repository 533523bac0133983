//! Parts of an SVG.

use run_words::Text;

/// A point, by how far it is from the left and from the top.
#[derive(Clone, Copy)]
pub(crate) struct Point {
    /// From the left.
    pub x: u64,
    /// From the top.
    pub y: u64,
}

impl Point {
    /// A point.
    pub(crate) fn new(x: u64, y: u64) -> Point {
        Point { x, y }
    }

    /// The point so far below.
    pub(crate) fn below(self, down: u64) -> Point {
        Point::new(self.x, self.y.saturating_add(down))
    }

    /// The point so far above.
    pub(crate) fn above(self, up: u64) -> Point {
        Point::new(self.x, self.y.saturating_sub(up))
    }

    /// The point so far to the left.
    pub(crate) fn left(self, by: u64) -> Point {
        Point::new(self.x.saturating_sub(by), self.y)
    }

    /// The point so far to the right.
    pub(crate) fn right(self, by: u64) -> Point {
        Point::new(self.x.saturating_add(by), self.y)
    }
}

/// Adds text with the letters escaped that XML gives a meaning, or doesn't have.
pub(crate) fn put_escaped(svg: &mut Text, text: &str) {
    for letter in text.chars() {
        put_letter(svg, letter);
    }
}

fn put_letter(svg: &mut Text, letter: char) {
    match letter {
        '&' => svg.word("&amp;"),
        '<' => svg.word("&lt;"),
        '>' => svg.word("&gt;"),
        '"' => svg.word("&quot;"),
        ' '..='~' => svg.letter(letter),
        _ => svg.word("?"),
    }
}

/// Adds the first letters of a text, escaped, and two dots where it has more.
pub(crate) fn put_short(svg: &mut Text, text: &str, most: usize) {
    for letter in text.chars().take(most) {
        put_letter(svg, letter);
    }
    if text.chars().nth(most).is_some() {
        svg.word("..");
    }
}

/// Adds ` name="number"`.
pub(crate) fn put_at(svg: &mut Text, name: &str, number: u64) {
    svg.word(" ");
    svg.word(name);
    svg.word("=\"");
    svg.number(number);
    svg.word("\"");
}

// Adds ` class="words"`.
fn put_class(svg: &mut Text, words: &str) {
    svg.word(" class=\"");
    svg.word(words);
    svg.word("\"");
}

/// Begins a group of a class.
pub(crate) fn open_group(svg: &mut Text, class: &str) {
    svg.word("<g");
    put_class(svg, class);
    svg.word(">");
}

/// Ends a group.
pub(crate) fn close_group(svg: &mut Text) {
    svg.word("</g>\n");
}

/// Adds a title.
pub(crate) fn put_title(svg: &mut Text, words: &str) {
    svg.word("<title>");
    put_escaped(svg, words);
    svg.word("</title>");
}

/// Adds a line of a class.
pub(crate) fn put_line(svg: &mut Text, class: &str, from: Point, to: Point) {
    svg.word("<line");
    put_class(svg, class);
    put_at(svg, "x1", from.x);
    put_at(svg, "y1", from.y);
    put_at(svg, "x2", to.x);
    put_at(svg, "y2", to.y);
    svg.word("/>");
}

/// Begins a text of a class at a point: its words and `</text>` follow.
pub(crate) fn open_text(svg: &mut Text, class: &str, at: Point) {
    svg.word("<text");
    put_class(svg, class);
    put_at(svg, "x", at.x);
    put_at(svg, "y", at.y);
    svg.word(">");
}

/// Adds words of a class at a point.
pub(crate) fn put_words(svg: &mut Text, class: &str, at: Point, words: &str) {
    open_text(svg, class, at);
    put_escaped(svg, words);
    svg.word("</text>");
}

/// Adds a box of a class, from its corner.
pub(crate) fn put_rect(svg: &mut Text, class: &str, at: Point, size: Point) {
    svg.word("<rect");
    put_class(svg, class);
    put_at(svg, "x", at.x);
    put_at(svg, "y", at.y);
    put_at(svg, "width", size.x);
    put_at(svg, "height", size.y);
    svg.word("/>");
}

/// Adds a shape of a class around a point, of the moves from there.
pub(crate) fn put_shape(svg: &mut Text, class: &str, at: Point, moves: &str) {
    svg.word("<path");
    put_class(svg, class);
    svg.word(" d=\"M");
    svg.number(at.x);
    svg.word(" ");
    svg.number(at.y);
    svg.word(moves);
    svg.word("\"/>");
}
