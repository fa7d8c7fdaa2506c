//! Compiles the programs of patterns.
ghost use Rattle.std.specs.Prelude.{◌≡◌, ◌⊎◌, [], ◌∷◌, ◌++◌, ◌≤◌, IfErr, IfOk, OnOk, map, vec_len};
ghost use Rattle.regex_compile.specs.Implements.{Implements};
ghost use Rattle.regex_hir.specs.Meaning.{meaning};
ghost use Rattle.patterns.specs.Faults.{IsFaultOf, IsFirstFault};
ghost use Rattle.patterns.specs.Patterns.{config_of};
ghost use Rattle.patterns.specs.declared.error.Fault.TheVariants as fault;
ghost use Rattle.meta.specs.Programs.{AreProgramsOf, IsProgramOf};
ghost use Rattle.meta.specs.declared.program.Program.{Program};

use crate::program::Program;
use patterns::{Fault, Options, PatternError, parse};
use regex_automata::util::primitives::PatternID;
use regex_nfa::Nfa;
use regex_syntax::Parsed;
use std::alloc::Global;

/// Compiles a tree to an NFA.
fn nfa_of(alloc: Global, parsed: &Parsed, limit: usize) -> Result<Nfa, Fault>
    ensures compiled { IfOk result (λ nfa. Implements nfa (meaning parsed.now.hir)) }
    ensures refused { IfErr result (λ f. (f ≡ fault.TooLarge) ⊎ (f ≡ fault.OutOfMemory)) }
{
    let Ok(groups) = u32::try_from(parsed.names.len()) else {
        return Err(Fault::TooLarge);
    };
    match regex_compile::compile(alloc, &parsed.hir, groups, limit) {
        Ok(nfa) => Ok(nfa),
        Err(regex_compile::Error::OutOfMemory) => Err(Fault::OutOfMemory),
        // The compiler reports no tree of the parser as malformed.
        Err(_) => Err(Fault::TooLarge),
    }
}

/// Takes the names of the groups.
fn into_names(parsed: Parsed) -> Vec<Option<String>>
    ensures { result ≡ parsed.names }
{
    let Parsed { hir: _hir, names } = parsed;
    names
}

/// Compiles the program of a text.
fn program_of(alloc: Global, text: &str, options: &Options) -> Result<Program, Fault>
    ensures compiled { IfOk result (IsProgramOf (config_of options.now) text.now) }
    ensures refused { IfErr result (IsFaultOf options.now text.now) }
{
    let parsed = parse(alloc, text, options)?;
    match nfa_of(alloc, &parsed, options.size_limit) {
        Ok(nfa) => {
            let names = into_names(parsed);
            Ok(Program { nfa, names })
        }
        Err(fault) => Err(fault),
    }
}

/// Compiles the programs of texts. It fails at the first text that has none.
pub(crate) fn programs_of(
    alloc: Global,
    texts: &[&str],
    options: &Options,
) -> Result<Vec<Program>, PatternError>
    ensures compiled { IfOk result (λ programs.
        AreProgramsOf (config_of options.now) (map (λ text. text.now) texts.now) programs.items) }
    ensures few { IfOk result (λ programs. vec_len programs ≤ 2147483647) }
    ensures refused { IfErr result (IsFirstFault options.now (map (λ text. text.now) texts.now)) }
{
    let mut programs = Vec::new(alloc);
    for text in texts {
        let number = programs.len();
        match add(alloc, text, options, &mut programs) {
            Ok(()) => {}
            Err(fault) => return Err(PatternError { number, fault }),
        }
    }
    Ok(programs)
}

/// Adds the program of a text.
fn add(
    alloc: Global,
    text: &str,
    options: &Options,
    programs: &mut Vec<Program>,
) -> Result<(), Fault>
    ensures added { OnOk result ((program : Program) × IsProgramOf (config_of options.now) text.now program
        × (programs.new.items ≡ programs.old.items ++ program ∷ [])) }
    ensures few { OnOk result (vec_len programs.new ≤ 2147483647) }
    ensures refused { IfErr result (IsFaultOf options.now text.now) }
{
    let program = program_of(alloc, text, options)?;
    if PatternID::new(programs.len()).is_none() {
        return Err(Fault::TooLarge);
    }
    programs.push(program)?;
    Ok(())
}
