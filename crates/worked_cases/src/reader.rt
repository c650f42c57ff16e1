// Reads the cases, a line at a time.
use crate::case::{Case, Device, Words, find, put};
use crate::content::{append, append_line};
use crate::fault::CaseFault;
use river_base::{Bytes, Listed};
use river_outside::Files;
use std::alloc::Global;
use std::mem;

// What the lines of content that come next belong to.
#[derive(Clone, Copy)]
enum Place {
    Nothing,
    Text,
    File,
    Out,
    Err,
}

/// The case that is read, and what was read before.
#[derive(Drop)]
pub(crate) struct Reader {
    alloc: Global,
    wanted: u32,
    texts: Files,
    // Words with which each case that runs a program is tried besides.
    besides: Listed<Words>,
    case: Case,
    // Whether the case has begun, and not ended.
    within: bool,
    place: Place,
    // The name of the text or file that is read, and what was read of it.
    open: (Bytes, Bytes),
}

impl Reader {
    /// Before the first line.
    pub fn new(alloc: Global) -> Self {
        Reader {
            alloc,
            wanted: 0,
            texts: Files::new(alloc),
            besides: Listed::new(alloc),
            case: Case::new(alloc),
            within: false,
            place: Place::Nothing,
            open: nothing(alloc),
        }
    }

    /// How many cases there are to be.
    pub fn wanted(&self) -> u32 {
        self.wanted
    }

    /// Whether a case has begun and not ended.
    pub fn is_within_a_case(&self) -> bool {
        self.within
    }

    /// The case that was read last.
    pub fn case(&self) -> &Case {
        &self.case
    }

    /// The words with which a run is tried besides.
    pub fn besides(&self) -> &[Words] {
        self.besides.as_slice()
    }

    /// Takes a line, and says whether a case ended there.
    pub fn take(&mut self, line: &str) -> Result<bool, CaseFault> {
        let (first, rest) = cut(line);
        match first {
            "" | "#" => Ok(false),
            "|" => self.add(1, rest),
            "@" => self.add_named(rest),
            _ => self.take_other(first, rest),
        }
    }

    // Takes a line that stands several times, or a line that is none of content, which ends there.
    fn take_other(&mut self, first: &str, rest: &str) -> Result<bool, CaseFault> {
        if let Ok(times) = first.parse::<u32>() {
            return self.add_times(times, rest);
        }
        self.close()?;
        if self.within {
            self.take_inner(first, rest)
        } else {
            self.take_outer(first, rest)
        }
    }

    // Takes a line that stands between cases.
    fn take_outer(&mut self, first: &str, rest: &str) -> Result<bool, CaseFault> {
        match first {
            "cases" => self.count(rest),
            "workers" => self.add_workers(rest),
            "text" => self.open_text(rest),
            "case" => self.begin_anew(rest),
            "also" => self.begin_also(rest),
            "same" => self.begin(rest),
            _ => Err(CaseFault::Line),
        }
    }

    // Takes a line that stands within a case.
    fn take_inner(&mut self, first: &str, rest: &str) -> Result<bool, CaseFault> {
        match first {
            "words" => read_words(self.alloc, rest, &mut self.case.words),
            "file" => self.open_file(rest),
            "reads" => read_device(self.alloc, rest, &mut self.case.reads),
            "writes" => read_device(self.alloc, rest, &mut self.case.writes),
            "tells" => read_device(self.alloc, rest, &mut self.case.tells),
            "status" => self.set_status(rest),
            "out" => self.open_at(Place::Out, rest),
            "err" => self.open_at(Place::Err, rest),
            "end" => self.end(),
            _ => Err(CaseFault::Line),
        }
    }

    // Appends a line so many times.
    fn add(&mut self, times: u32, line: &str) -> Result<bool, CaseFault> {
        if matches!(self.place, Place::Nothing) {
            return Err(CaseFault::Line);
        }
        for turn in 1..=times {
            append_line(line.as_bytes(), turn, &mut self.open.1)?;
        }
        Ok(false)
    }

    // The same where the line stands behind a bar.
    fn add_times(&mut self, times: u32, text: &str) -> Result<bool, CaseFault> {
        match text.split_once(' ') {
            Some(("|", line)) => self.add(times, line),
            _ => Err(CaseFault::Line),
        }
    }

    // Appends a text that was named.
    fn add_named(&mut self, name: &str) -> Result<bool, CaseFault> {
        match find(&self.texts, name.as_bytes()) {
            Some(text) if !matches!(self.place, Place::Nothing) => {
                self.open.1.extend(text.as_slice())?;
                Ok(false)
            }
            _ => Err(CaseFault::Line),
        }
    }

    // Puts what was read of a content where it belongs.
    fn close(&mut self) -> Result<(), CaseFault> {
        let place = mem::replace(&mut self.place, Place::Nothing);
        let open = mem::replace(&mut self.open, nothing(self.alloc));
        match place {
            Place::Nothing => Ok(()),
            Place::Text => put(&mut self.texts, open),
            Place::File => put(&mut self.case.files, open),
            Place::Out => {
                self.case.out = open.1;
                Ok(())
            }
            Place::Err => {
                self.case.err = open.1;
                Ok(())
            }
        }
    }

    fn count(&mut self, number: &str) -> Result<bool, CaseFault> {
        self.wanted = read_number(number)?;
        Ok(false)
    }

    // Each case from here on that runs a program is tried with these words besides.
    fn add_workers(&mut self, text: &str) -> Result<bool, CaseFault> {
        let mut words = Words::new(self.alloc);
        read_words(self.alloc, text, &mut words)?;
        self.besides.push(words)?;
        Ok(false)
    }

    fn begin_anew(&mut self, title: &str) -> Result<bool, CaseFault> {
        self.case = Case::new(self.alloc);
        self.begin(title)
    }

    fn begin_also(&mut self, title: &str) -> Result<bool, CaseFault> {
        self.case.again(self.alloc);
        self.begin(title)
    }

    fn begin(&mut self, title: &str) -> Result<bool, CaseFault> {
        self.case.title.truncate(0);
        self.case.title.extend(title.as_bytes())?;
        self.within = true;
        Ok(false)
    }

    // A case ends only where it says with which status.
    fn end(&mut self) -> Result<bool, CaseFault> {
        if self.case.status.is_none() {
            return Err(CaseFault::Line);
        }
        self.within = false;
        Ok(true)
    }

    fn open_text(&mut self, name: &str) -> Result<bool, CaseFault> {
        self.open.0.extend(name.as_bytes())?;
        self.place = Place::Text;
        Ok(false)
    }

    // A file, whose first line may stand beside its name.
    fn open_file(&mut self, text: &str) -> Result<bool, CaseFault> {
        let (name, line) = cut(text);
        append(name.as_bytes(), 1, &mut self.open.0)?;
        self.open_at(Place::File, line)
    }

    // Opens a content whose first line may stand there.
    fn open_at(&mut self, place: Place, line: &str) -> Result<bool, CaseFault> {
        self.place = place;
        if line.is_empty() {
            return Ok(false);
        }
        self.add_times(1, line)
    }

    fn set_status(&mut self, text: &str) -> Result<bool, CaseFault> {
        match text.parse::<u8>() {
            Ok(status) => self.case.status = Some(status),
            Err(_) => return Err(CaseFault::Line),
        }
        Ok(false)
    }
}

// No name, and no content.
fn nothing(alloc: Global) -> (Bytes, Bytes) {
    (Bytes::new(alloc), Bytes::new(alloc))
}

// A line cut behind its first word.
fn cut(line: &str) -> (&str, &str) {
    match line.split_once(' ') {
        Some((first, rest)) => (first, rest),
        None => (line, ""),
    }
}

// Words are separated by single spaces; `""` is the empty one.
fn read_words(alloc: Global, text: &str, words: &mut Words) -> Result<bool, CaseFault> {
    words.truncate(0);
    for word in text.split_whitespace() {
        words.push(read_word(alloc, word)?)?;
    }
    Ok(false)
}

fn read_word(alloc: Global, word: &str) -> Result<Bytes, CaseFault> {
    let mut bytes = Bytes::new(alloc);
    if word != "\"\"" {
        append(word.as_bytes(), 1, &mut bytes)?;
    }
    Ok(bytes)
}

// A device by words such as `piece 5`, `room 7` and `fails 1`, in any order.
fn read_device(alloc: Global, text: &str, device: &mut Device) -> Result<bool, CaseFault> {
    *device = Device::new(alloc);
    let mut words = text.split_whitespace();
    while let Some(word) = words.next() {
        read_part(word, words.next().unwrap_or(""), device)?;
    }
    Ok(false)
}

fn read_part(word: &str, number: &str, device: &mut Device) -> Result<(), CaseFault> {
    let number = read_number(number)?;
    match word {
        "piece" => device.piece = number,
        "room" => device.room = number,
        "fails" => return Ok(device.fails.push(i64::from(number))?),
        _ => return Err(CaseFault::Line),
    }
    Ok(())
}

fn read_number(text: &str) -> Result<u32, CaseFault> {
    match text.parse::<u32>() {
        Ok(number) => Ok(number),
        Err(_) => Err(CaseFault::Line),
    }
}
