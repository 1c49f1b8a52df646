//! What a run meets.

/// What a run meets, as it stands in the file of cases.
#[derive(Clone, Copy)]
pub struct Case<'a> {
    /// The words of the command line.
    pub words: &'a str,
    /// The server's greeting.
    pub greeting: &'a str,
    /// The sequence id of the server's first answer to the login, and its answers.
    pub login: &'a str,
    /// How result sets end: `ok`, or else by EOF packets.
    pub ends: &'a str,
    /// The rows that tell the columns.
    pub columns: &'a str,
    /// How many columns the rows have, and the rows with what ends them.
    pub rows: &'a str,
    /// Greatest answers of a `recv`, 0 for no limit: the run is tried with each.
    pub cuts: &'a str,
    /// The calls of the site that fail, by number.
    pub faults: &'a str,
    /// A file that the folder has before.
    pub listed: &'a str,
    /// The name of the data file.
    pub file: &'a str,
    /// What a data file begins with.
    pub preamble: &'a str,
}

/// The case at hand, and the one that each begins with.
#[derive(Clone, Copy)]
pub struct Cases<'a> {
    pub plain: Case<'a>,
    pub case: Case<'a>,
}

impl<'a> Cases<'a> {
    /// Nothing is said yet.
    pub fn new() -> Cases<'a> {
        let empty = Case {
            words: "",
            greeting: "",
            login: "",
            ends: "",
            columns: "",
            rows: "",
            cuts: "",
            faults: "",
            listed: "",
            file: "",
            preamble: "",
        };
        Cases {
            plain: empty,
            case: empty,
        }
    }

    /// Takes a line that isn't a call. An empty one begins a case, `plain` says that each begins as this
    /// one, and `#` is before a title. False where it is none of these.
    pub fn set(&mut self, line: &'a str) -> bool {
        if line.starts_with("#") {
            return true;
        }
        match line {
            "" => self.case = self.plain,
            "plain" => self.plain = self.case,
            _ => match changed(self.case, line) {
                Some(case) => self.case = case,
                None => return false,
            },
        }
        true
    }
}

/// The case with what a line sets: a word for what it is, and a blank before the value.
pub fn changed<'a>(case: Case<'a>, line: &'a str) -> Option<Case<'a>> {
    let (word, value) = line.split_once(' ')?;
    let mut case = case;
    match word {
        "words" => case.words = value,
        "greeting" => case.greeting = value,
        "login" => case.login = value,
        "ends" => case.ends = value,
        "columns" => case.columns = value,
        "rows" => case.rows = value,
        "cuts" => case.cuts = value,
        "faults" => case.faults = value,
        "listed" => case.listed = value,
        "file" => case.file = value,
        "preamble" => case.preamble = value,
        _ => return None,
    }
    Some(case)
}
