//! The markers of sections: `-- NAME --`, or `-- NAME (HOW, HOW) --`.

/// How often a text stands in a content.
#[derive(Clone, Copy, Debug)]
pub enum Copies {
    One,
    Times(u64),
    /// Once for each number from the first to the last, which stands where the text has `#`.
    Numbered(u64, u64),
}

/// How the text under a marker is read.
#[derive(Clone, Copy, Debug)]
pub struct How {
    /// The text has escapes.
    pub is_escaped: bool,
    /// The name of the file has escapes.
    pub has_escaped_name: bool,
    /// Each line of the text, with escapes, is the content in one row of the case.
    pub is_by_line: bool,
    /// The name is that of a file, although it has no slash.
    pub is_file: bool,
    /// The file isn't in the tree.
    pub is_absent: bool,
    pub copies: Copies,
}

impl How {
    fn plain() -> How {
        How {
            is_escaped: false,
            has_escaped_name: false,
            is_by_line: false,
            is_file: false,
            is_absent: false,
            copies: Copies::One,
        }
    }
}

/// What stands between the dashes, where the line is a marker.
pub fn marker_of(line: &str) -> Option<&str> {
    let line = line.strip_suffix('\n').unwrap_or(line);
    let name = line.strip_prefix("-- ")?.strip_suffix(" --")?;
    if name.is_empty() {
        return None;
    }
    Some(name)
}

fn number(digits: &str) -> Option<u64> {
    digits.parse::<u64>().ok()
}

fn copies_of(word: &str) -> Option<Copies> {
    if let Some(digits) = word.strip_suffix(" times") {
        return Some(Copies::Times(number(digits)?));
    }
    let (first, last) = word.split_once(" to ")?;
    Some(Copies::Numbered(number(first)?, number(last)?))
}

fn how_of(words: &str) -> Option<How> {
    let mut how = How::plain();
    for word in words.split(", ") {
        match word {
            "escaped" => how.is_escaped = true,
            "escaped name" => how.has_escaped_name = true,
            "each line" => how.is_by_line = true,
            "file" => how.is_file = true,
            "absent" => how.is_absent = true,
            _ => how.copies = copies_of(word)?,
        }
    }
    Some(how)
}

/// The name and how the text is read, or `None` where the words in parentheses say something else.
/// The title of a case is taken as it stands.
pub fn heading_of(marker: &str) -> Option<(&str, How)> {
    if marker.starts_with("case ") {
        return Some((marker, How::plain()));
    }
    let Some(front) = marker.strip_suffix(')') else {
        return Some((marker, How::plain()));
    };
    let (name, words) = front.rsplit_once(" (")?;
    Some((name, how_of(words)?))
}
