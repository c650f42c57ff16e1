// The names of a program's inputs, and those that the words give.
ghost use Rattle.std.specs.Prelude.{◌≡◌, nat_lt, None, Some, MatchOption};
ghost use Rattle.river_outside.specs.Passes.{Answers};
ghost use Rattle.river_plan.specs.Forms.{decl_names};
ghost use Rattle.river_plan.specs.Names.{count};
ghost use Rattle.river_road.specs.Inputs.{names, unknown, missing, names_fit};

use crate::text;
use command_line::InWord;
use river_outside::Stop;
use river_plan::Decl;
use std::alloc::Global;

/// Whether each name of the words is an input of the program, and each input has a word; otherwise what is told of the
/// first word whose name is unknown, or else of the first input that is missing.
pub(crate) fn check_names(alloc: Global, decls: &[Decl], ins: &[InWord]) -> Result<(), Stop>
    ensures { Answers (names_fit decls.now ins.now) result }
{
    if let Some(word) = unknown(decls, ins) {
        return Err(Stop::Refused(text::unknown(alloc, word.name.as_slice())?));
    }
    if let Some(decl) = missing(decls, ins) {
        return Err(Stop::Refused(text::missing(alloc, decl.name.as_slice())?));
    }
    Ok(())
}

// The first word whose name is no input.
fn unknown<'a>(decls: &[Decl], ins: &'a [InWord]) -> Option<&'a InWord>
    ensures { MatchOption result (unknown decls.now ins.now ≡ None) (λ w. unknown decls.now ins.now ≡ Some w.now) }
{
    for word in ins {
        if !is_declared(decls, word.name.as_slice()) {
            return Some(word);
        }
    }
    None
}

// The first input that no word names.
fn missing<'a>(decls: &'a [Decl], ins: &[InWord]) -> Option<&'a Decl>
    ensures { MatchOption result (missing decls.now ins.now ≡ None) (λ d. missing decls.now ins.now ≡ Some d.now) }
{
    for decl in decls {
        if !is_named(ins, decl.name.as_slice()) {
            return Some(decl);
        }
    }
    None
}

// Whether an input has this name.
fn is_declared(decls: &[Decl], name: &[u8]) -> bool
    ensures { result ≡ nat_lt 0 (count name.now (decl_names decls.now)) }
{
    for decl in decls {
        if decl.name.as_slice() == name {
            return true;
        }
    }
    false
}

// Whether a word has this name.
fn is_named(ins: &[InWord], name: &[u8]) -> bool
    ensures { result ≡ nat_lt 0 (count name.now (names ins.now)) }
{
    for word in ins {
        if word.name.as_slice() == name {
            return true;
        }
    }
    false
}
