//! The fields of a line, for messages.

/// The fields of a line: what stands between spaces and tabs, up to a semicolon.
#[derive(Clone, Copy)]
pub struct Fields<'a> {
    text: &'a str,
}

impl<'a> Fields<'a> {
    /// The fields of this line.
    pub fn of(line: &'a str) -> Fields<'a> {
        let text = match line.split_once(';') {
            Some((front, _)) => front,
            None => line,
        };
        Fields { text }
    }

    /// The line without its comment.
    pub fn text(self) -> &'a str {
        self.text
    }

    /// The field of this number, counted from 0.
    pub fn get(self, number: usize) -> Option<&'a str> {
        let mut left = number;
        for field in self.text.split([' ', '\t']) {
            if field.is_empty() {
                continue;
            }
            if left == 0 {
                return Some(field);
            }
            left -= 1;
        }
        None
    }

    /// How many fields there are.
    pub fn count(self) -> usize {
        let mut count: usize = 0;
        for field in self.text.split([' ', '\t']) {
            if !field.is_empty() {
                count = count.saturating_add(1);
            }
        }
        count
    }

    /// Whether a field begins a comment of another language.
    pub fn has_foreign_comment(self) -> bool {
        for field in self.text.split([' ', '\t']) {
            if is_foreign_comment(field) {
                return true;
            }
        }
        false
    }
}

/// Whether a field begins a comment of another language, by `#` or `//`.
pub fn is_foreign_comment(field: &str) -> bool {
    field.starts_with('#') || field.starts_with("//")
}
