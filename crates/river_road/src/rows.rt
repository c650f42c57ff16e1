// What the files of a program's inputs have.
ghost use Rattle.std.specs.Prelude.{◌≡◌, ◌≤◌, ℕ, List, false, length, All, IsTrue, IfOk, MatchOption};
ghost use Rattle.csv_streams.specs.Rows.{rows_of_file, IsAnswer};
ghost use Rattle.csv_streams.specs.Timed.{timed_of};
ghost use Rattle.river_base.specs.declared.kind.QueueType.TheVariants.{Pack as PackOf};
ghost use Rattle.river_outside.specs.Passes.{Answers, AnswersAs};
ghost use Rattle.river_kernels.specs.Formed.{is_width};
ghost use Rattle.river_base.specs.Name.{name_eq};
ghost use Rattle.river_plan.specs.Faults.{type_width};
ghost use Rattle.river_plan.specs.Forms.{decl_names};
ghost use Rattle.river_plan.specs.Kinds.{kind_of};
ghost use Rattle.river_plan.specs.Names.{count};
ghost use Rattle.river_road.specs.Inputs.{width_named, file_read, read_as, file_content, content_reader, all_read, content_named, contents_in_order, NamesNone, NamesPlace};
ghost use Rattle.river_road.specs.declared.content.FileContent.TheVariants.{Rows as Plain, Timed};

use crate::content::FileContent;
use crate::layout::Layout;
use crate::text;
use command_line::InWord;
use csv_streams::{InFault, read_even, read_timed};
use kern_rows::EvenRows;
use river_base::{Bytes, FlatType, Listed, NoMemory, QueueType};
use river_outside::Stop;
use river_plan::Decl;
use std::alloc::Global;
use std::mem::replace;

/// What each input has, in the order of the program's inputs, of the files in the order of the words.
pub(crate) fn read_inputs(
    alloc: Global,
    decls: &[Decl],
    layout: Layout,
    ins: &[InWord],
    files: &[Bytes],
) -> Result<Listed<FileContent>, Stop>
    requires count { length files.now ≡ length ins.now }
    requires widths { All (λ w. IsTrue (is_width (width_named decls.now w.name))) ins.now }
    requires apart { (q : List ℕ) → count q (decl_names decls.now) ≤ 1 }
    ensures { AnswersAs (λ all files. files ≡ contents_in_order decls.now ins.now all) (all_read (content_reader decls.now layout) ins.now files.now) result }
{
    let mut all = read_all(alloc, decls, layout, ins, files)?;
    Ok(arrange(alloc, decls, ins, &mut all)?)
}

// What all files have, in the order of the words.
fn read_all(
    alloc: Global,
    decls: &[Decl],
    layout: Layout,
    ins: &[InWord],
    files: &[Bytes],
) -> Result<Listed<FileContent>, Stop>
    requires count { length files.now ≡ length ins.now }
    requires widths { All (λ w. IsTrue (is_width (width_named decls.now w.name))) ins.now }
    ensures count { IfOk result (λ all. length all ≡ length ins.now) }
    ensures answers { Answers (all_read (content_reader decls.now layout) ins.now files.now) result }
{
    let mut all = Listed::new(alloc);
    for place in 0..ins.len() {
        all.push(read_one(alloc, decls, layout, &ins[place], &files[place])?)?;
    }
    Ok(all)
}

// What the file of a word has.
fn read_one(
    alloc: Global,
    decls: &[Decl],
    layout: Layout,
    word: &InWord,
    bytes: &Bytes,
) -> Result<FileContent, Stop>
    requires { IsTrue (is_width (width_named decls.now word.now.name)) }
    ensures { Answers (file_read (content_reader decls.now layout) word.now bytes.now) result }
{
    let kind = kind_named(decls, word.name.as_slice());
    match read_content(alloc, kind, layout, bytes) {
        Ok(content) => Ok(content),
        Err(InFault::NoMemory) => Err(Stop::NoMemory),
        Err(fault) => Err(Stop::Refused(text::in_fault(alloc, word.name.as_slice(), fault)?)),
    }
}

// The type of the input of this name; one without width where there is none.
fn kind_named(decls: &[Decl], name: &[u8]) -> QueueType
    ensures { result ≡ kind_of decls.now name.now }
{
    for decl in decls {
        if decl.name.as_slice() == name {
            return decl.kind;
        }
    }
    QueueType::Flat(FlatType::Rows(0))
}

// What the file of an input of this type has.
fn read_content(
    alloc: Global,
    kind: QueueType,
    layout: Layout,
    bytes: &Bytes,
) -> Result<FileContent, InFault>
    requires { IsTrue (is_width (type_width kind)) }
    ensures { IsAnswer (file_content kind layout bytes.now) result }
{
    match kind {
        QueueType::Flat(FlatType::Stream(width)) => read_stream(alloc, bytes, width, layout.header),
        QueueType::Flat(FlatType::Rows(width)) => read_plain(alloc, bytes, width, layout),
        QueueType::Flat(FlatType::Relation(width)) => read_plain(alloc, bytes, width, layout),
        QueueType::Pack(flat) => read_plain(alloc, bytes, width_of(flat), layout),
    }
}

fn width_of(flat: FlatType) -> u32
    ensures { result ≡ type_width (PackOf flat) }
{
    match flat {
        FlatType::Rows(width) | FlatType::Stream(width) | FlatType::Relation(width) => width,
    }
}

fn read_plain(
    alloc: Global,
    bytes: &Bytes,
    width: u32,
    layout: Layout,
) -> Result<FileContent, InFault>
    requires { IsTrue (is_width width) }
    ensures { IsAnswer (read_as Plain (rows_of_file bytes.now width layout.header layout.more)) result }
{
    Ok(FileContent::Rows(read_even(alloc, bytes, width, layout.header, layout.more)?))
}

fn read_stream(
    alloc: Global,
    bytes: &Bytes,
    width: u32,
    header: bool,
) -> Result<FileContent, InFault>
    requires { IsTrue (is_width width) }
    ensures { IsAnswer (read_as Timed (timed_of bytes.now width header)) result }
{
    Ok(FileContent::Timed(read_timed(alloc, bytes, width, header)?))
}

// What each input has, in the order of the program's inputs: it moves there. Each input has its own name.
fn arrange(
    alloc: Global,
    decls: &[Decl],
    ins: &[InWord],
    all: &mut Listed<FileContent>,
) -> Result<Listed<FileContent>, NoMemory>
    requires count { length all.old ≡ length ins.now }
    requires apart { (q : List ℕ) → count q (decl_names decls.now) ≤ 1 }
    ensures { IfOk result (λ files. files ≡ contents_in_order decls.now ins.now all.old) }
{
    let mut files = Listed::new(alloc);
    for place in 0..decls.len() {
        files.push(take_named(alloc, ins, all, decls[place].name.as_slice()))?;
    }
    Ok(files)
}

// What the words give to an input; no row is left there.
fn take_named(
    alloc: Global,
    ins: &[InWord],
    all: &mut Listed<FileContent>,
    name: &[u8],
) -> FileContent
    requires { length all.old ≡ length ins.now }
    ensures count { length all.new ≡ length all.old }
    ensures taken { result ≡ content_named ins.now all.old name.now }
    ensures others { (q : List ℕ) → name_eq name.now q ≡ false → content_named ins.now all.new q ≡ content_named ins.now all.old q }
{
    let none = FileContent::Rows(EvenRows::new(alloc));
    match place_named(ins, name) {
        Some(place) => replace(all.at_mut(place), none),
        None => none,
    }
}

// The place of the first word of this name.
fn place_named(ins: &[InWord], name: &[u8]) -> Option<usize>
    ensures { MatchOption result (NamesNone ins.now name.now) (NamesPlace ins.now name.now) }
{
    for place in 0..ins.len() {
        if ins[place].name.as_slice() == name {
            return Some(place);
        }
    }
    None
}
