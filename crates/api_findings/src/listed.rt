//! What is listed of one tree on a platform.
use api_lines::line::Line;
use go_base::list::List;
use go_base::text::Text;

/// What is listed of one tree on a platform: its features, and what was left out of it.
pub(crate) struct Listed {
    pub lines: List<Line>,
    pub left_out: List<Text>,
}

impl Drop for Listed {
    fn drop(self) {
        let Listed {
            lines: _,
            left_out: _,
        } = self;
    }
}

impl Listed {
    ghost use Rattle.std.specs.Prelude.{◌≡◌};

    /// Both, moved out.
    pub(crate) fn into_parts(self) -> (List<Line>, List<Text>)
        ensures { result ≡ (self.lines, self.left_out) }
    {
        let Listed { lines, left_out } = self;
        (lines, left_out)
    }
}
