// A line of dock.
use script::words;

#[derive(Clone, Copy)]
pub enum Line {
    New,
    Put { id: u64, xid: u64, address: u64 },
    Flush { xid: u64 },
}

impl Line {
    // The line that a text is, if it is one.
    pub fn read(text: &[u8]) -> Option<Line> {
        let w = words::inner(text);
        match (words::count(w), words::word(w, 0)) {
            (1, b"new") => Some(Line::New),
            (4, b"put") => {
                let [id, xid, address] = words::numbers::<3>(w, 1)?;
                Some(Line::Put { id, xid, address })
            }
            (2, b"flush") => {
                let [xid] = words::numbers::<1>(w, 1)?;
                Some(Line::Flush { xid })
            }
            _ => None,
        }
    }
}
