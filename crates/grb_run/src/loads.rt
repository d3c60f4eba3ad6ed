//! The files that a script loads, read and checked before its first statement.
ghost use Rattle.std.specs.Prelude.{◌≡◌, ◌+◌, ◌≤◌, ℕ, List, [], ◌∷◌, length, map, OnOk, IfOk, IfErr};
ghost use Rattle.std.specs.List.{flat_map};
ghost use Rattle.std.specs.Vec.Iter.{into_iter_items};
ghost use Rattle.grb_market.specs.declared.fault.ReadError.{ReadError};
ghost use Rattle.grb_script.specs.declared.command.Command.{Command};
ghost use Rattle.grb_run.specs.Loads.{IsLoaded, IsLoadFault, IsReadInto, IsStepFault, AreSteps, IsWhyNotLoaded, AreThreadSteps, AreScriptSteps, steps_listed, all_of};
ghost use Rattle.grb_script.specs.Script.{listed};
ghost use Rattle.grb_run.specs.Printed.{making, sum_of, filling};
ghost use Rattle.grb_run.specs.Run.{MetFaults};
ghost use Rattle.grb_run.specs.RunFault.{file_run_fault, load_run_fault};
ghost use Rattle.grb_run.specs.SectionSteps.{commands_of, loads_among, steps_with};
ghost use Rattle.grb_run.specs.Source.{AreCountable};

use crate::fault::RunFault;
use crate::source::{Source, SourceFault};
use grb_call::MatrixTuples;
use grb_core::{Domain, Monoid};
use grb_market::{Loaded, ReadError, read};
use grb_script::{Command, FilePath, NumberedCommand, Script, Statement};
use std::alloc::{AllocError, Global};
use std::marker::Model;
use std::vec::IntoIter;

/// What a line of a script does in the store, once the file of each load is read.
#[derive(Drop)]
pub enum Step {
    /// The call of a statement.
    Statement(Statement),
    /// A matrix is made and filled, as a file spells it, and the next name made for it.
    Load(Loaded),
}

/// The steps of a section, in their order: what its lines ask for, as they were read, and the matrix of each load among them. It is seen as
/// the list of the steps.
#[derive(Drop)]
pub(crate) struct SectionSteps {
    pub(crate) commands: Vec<NumberedCommand>,
    pub(crate) loads: Vec<Loaded>,
}

impl Model for SectionSteps {
    ghost use Rattle.std.specs.Prelude.{◌≡◌, List, length};
    ghost use Rattle.grb_run.specs.declared.loads.Step.{Step};
    ghost use Rattle.grb_run.specs.SectionSteps.{commands_of, loads_among, steps_with};

    ghost Value = { List Step };

    ghost view = { λ s. steps_with (commands_of s.commands.items) s.loads.items };

    ghost invariant = { λ s. length s.loads.items ≡ loads_among (commands_of s.commands.items) };
}

impl SectionSteps {
    /// How many steps there are.
    pub(crate) fn len(&self) -> usize
        ensures { result ≡ length self.now }
    {
        self.commands.len()
    }

    /// Whether a statement of the section asks for entries, or checks them.
    pub(crate) fn asks_for_entries(&self) -> bool {
        for numbered in &self.commands {
            if let Command::Statement(statement) = &numbered.command {
                match statement {
                    Statement::Nvals { .. }
                    | Statement::GetMatrix { .. }
                    | Statement::GetVector { .. }
                    | Statement::BuildMatrix { .. }
                    | Statement::BuildVector { .. }
                    | Statement::Total { .. }
                    | Statement::Wait { .. }
                    | Statement::Tuples { .. } => return true,
                    _ => {}
                }
            }
        }
        false
    }

    /// Whether a statement of the section makes a product of two matrices.
    pub(crate) fn multiplies(&self) -> bool {
        for numbered in &self.commands {
            if let Command::Statement(Statement::Mxm(_)) = &numbered.command {
                return true;
            }
        }
        false
    }
}

/// The step of what a line asks for: a load takes the first of these matrices.
pub(crate) fn step_of(command: Command, loads: &mut IntoIter<Loaded>) -> Step
    requires { loads_among (command ∷ []) ≤ length (into_iter_items loads.old) }
    ensures first { (more : List Command) → steps_with (command ∷ more) (into_iter_items loads.old) ≡ result ∷ steps_with more (into_iter_items loads.new) }
    ensures rest { length (into_iter_items loads.new) + loads_among (command ∷ []) ≡ length (into_iter_items loads.old) }
{
    match command {
        Command::Statement(statement) => Step::Statement(statement),
        Command::Load(_) => match loads.next() {
            Some(loaded) => Step::Load(loaded),
            None => unreachable!(),
        },
    }
}

/// Why a run ends that was not given the file of the load on this line.
fn file_run_fault(line: u64, fault: SourceFault) -> RunFault
    ensures { result ≡ file_run_fault line fault }
{
    match fault {
        SourceFault::CannotRead => RunFault::CannotReadFile { line },
        SourceFault::TooLong => RunFault::FileTooLong { line },
        SourceFault::OutOfMemory => RunFault::OutOfMemory,
    }
}

/// Why a run ends whose file of the load on this line was not read as a matrix.
fn load_run_fault(line: u64, error: ReadError) -> RunFault
    ensures { result ≡ load_run_fault line error }
{
    match error {
        ReadError::Fault(fault) => RunFault::Load { line, fault },
        ReadError::OutOfMemory => RunFault::OutOfMemory,
    }
}

/// The matrix that the file of a path spells, for the load on this line. `OutOfMemory` where memory for its bytes or its entries is
/// refused.
fn load_file<S: Source>(
    alloc: Global,
    source: &mut S,
    line: u64,
    path: &FilePath,
) -> Result<Loaded, RunFault>
    requires { AreCountable (S.faults source.old) }
    ensures loaded { IfOk result (IsLoaded (S.file_bytes source.old path.now)) }
    ensures fault { IfErr result (IsLoadFault (S.file_bytes source.old path.now) line) }
    ensures source_faults { MetFaults (S.faults source.old) result (S.faults source.new) }
    ensures script_stays { S.script_bytes source.new ≡ S.script_bytes source.old }
    ensures files_stay { (path : List ℕ) → S.file_bytes source.new path ≡ S.file_bytes source.old path }
{
    let text = match source.file(path.as_str()) {
        Ok(text) => text,
        Err(fault) => return Err(file_run_fault(line, fault)),
    };
    match read(alloc, &text) {
        Ok(loaded) => Ok(loaded),
        Err(error) => Err(load_run_fault(line, error)),
    }
}

/// Reads the file of a line that loads one, and puts its matrix after these. `OutOfMemory` where memory for it is refused.
fn read_into<S: Source>(
    alloc: Global,
    source: &mut S,
    numbered: &NumberedCommand,
    loads: &mut Vec<Loaded>,
) -> Result<(), RunFault>
    requires { AreCountable (S.faults source.old) }
    ensures read { OnOk result (IsReadInto (S.file_bytes source.old) numbered.now.command loads.old.items loads.new.items) }
    ensures fault { IfErr result (IsStepFault (S.file_bytes source.old) numbered.now.line numbered.now.command) }
    ensures source_faults { MetFaults (S.faults source.old) result (S.faults source.new) }
    ensures script_stays { S.script_bytes source.new ≡ S.script_bytes source.old }
    ensures files_stay { (path : List ℕ) → S.file_bytes source.new path ≡ S.file_bytes source.old path }
{
    match &numbered.command {
        Command::Statement(_) => Ok(()),
        Command::Load(path) => {
            let loaded = load_file(alloc, source, numbered.line, path)?;
            loads.push(loaded).map_err(AllocError::from)?;
            Ok(())
        }
    }
}

/// The matrices that these lines load, in their order: the file of each load is read and checked. `OutOfMemory` where memory for them or
/// for a file is refused.
fn loads_of<S: Source>(
    alloc: Global,
    source: &mut S,
    commands: &[NumberedCommand],
) -> Result<Vec<Loaded>, RunFault>
    requires { AreCountable (S.faults source.old) }
    ensures steps { IfOk result (λ loads. AreSteps (S.file_bytes source.old) commands.now (steps_with (commands_of commands.now) loads.items)) }
    ensures count { IfOk result (λ loads. length loads.items ≡ loads_among (commands_of commands.now)) }
    ensures fault { IfErr result (IsWhyNotLoaded (S.file_bytes source.old) commands.now) }
    ensures source_faults { MetFaults (S.faults source.old) result (S.faults source.new) }
    ensures script_stays { S.script_bytes source.new ≡ S.script_bytes source.old }
    ensures files_stay { (path : List ℕ) → S.file_bytes source.new path ≡ S.file_bytes source.old path }
{
    let mut loads = Vec::new(alloc);
    for numbered in commands {
        read_into(alloc, source, numbered, &mut loads)?;
    }
    Ok(loads)
}

/// The steps of what these lines ask for. The file of each load is read and checked, in their order. `OutOfMemory` where memory for a
/// matrix or for a file is refused; then no statement is run.
fn steps_of<S: Source>(
    alloc: Global,
    source: &mut S,
    commands: Vec<NumberedCommand>,
) -> Result<SectionSteps, RunFault>
    requires { AreCountable (S.faults source.old) }
    ensures steps { IfOk result (λ steps. AreSteps (S.file_bytes source.old) commands.items steps) }
    ensures fault { IfErr result (IsWhyNotLoaded (S.file_bytes source.old) commands.items) }
    ensures source_faults { MetFaults (S.faults source.old) result (S.faults source.new) }
    ensures script_stays { S.script_bytes source.new ≡ S.script_bytes source.old }
    ensures files_stay { (path : List ℕ) → S.file_bytes source.new path ≡ S.file_bytes source.old path }
{
    let loads = loads_of(alloc, source, &commands)?;
    Ok(SectionSteps { commands, loads })
}

/// The steps of a script, by section.
#[derive(Drop)]
pub(crate) struct ScriptSteps {
    pub(crate) main: SectionSteps,
    pub(crate) threads: Vec<SectionSteps>,
    pub(crate) finally: SectionSteps,
}

impl ScriptSteps {
    /// Whether a statement of the script makes a product of two matrices.
    pub(crate) fn multiplies(&self) -> bool {
        for steps in &self.threads {
            if steps.multiplies() {
                return true;
            }
        }
        self.main.multiplies() || self.finally.multiplies()
    }
}

/// The steps of thread sections, one after another. `OutOfMemory` where memory for them or for a file is refused; then no statement is run.
fn thread_steps<S: Source>(
    alloc: Global,
    source: &mut S,
    threads: Vec<Vec<NumberedCommand>>,
) -> Result<Vec<SectionSteps>, RunFault>
    requires { AreCountable (S.faults source.old) }
    ensures steps { IfOk result (λ steps. AreThreadSteps (S.file_bytes source.old) (map (λ commands. commands.items) threads.items) steps.items) }
    ensures fault { IfErr result (IsWhyNotLoaded (S.file_bytes source.old) (flat_map (λ more. more) (map (λ commands. commands.items) threads.items))) }
    ensures source_faults { MetFaults (S.faults source.old) result (S.faults source.new) }
    ensures script_stays { S.script_bytes source.new ≡ S.script_bytes source.old }
    ensures files_stay { (path : List ℕ) → S.file_bytes source.new path ≡ S.file_bytes source.old path }
{
    let mut all = Vec::new(alloc);
    for commands in threads {
        let steps = steps_of(alloc, source, commands)?;
        all.push(steps).map_err(AllocError::from)?;
    }
    Ok(all)
}

/// The steps of a script. The file of each load is read and checked, in the order of the text. `OutOfMemory` where memory for them or for a
/// file is refused; then no statement is run.
pub(crate) fn script_steps<S: Source>(
    alloc: Global,
    source: &mut S,
    script: Script,
) -> Result<ScriptSteps, RunFault>
    requires { AreCountable (S.faults source.old) }
    ensures steps { IfOk result (λ steps. AreScriptSteps (S.file_bytes source.old) (listed script) (steps_listed steps)) }
    ensures count { IfOk result (λ steps. length steps.threads.items ≡ length script.threads.items) }
    ensures fault { IfErr result (IsWhyNotLoaded (S.file_bytes source.old) (all_of (listed script))) }
    ensures source_faults { MetFaults (S.faults source.old) result (S.faults source.new) }
    ensures script_stays { S.script_bytes source.new ≡ S.script_bytes source.old }
    ensures files_stay { (path : List ℕ) → S.file_bytes source.new path ≡ S.file_bytes source.old path }
{
    let Script {
        main,
        threads,
        finally,
    } = script;
    let main = steps_of(alloc, source, main)?;
    let threads = thread_steps(alloc, source, threads)?;
    let finally = steps_of(alloc, source, finally)?;
    Ok(ScriptSteps {
        main,
        threads,
        finally,
    })
}

/// The statement that makes the matrix of a load.
pub(crate) fn making(loaded: &Loaded) -> Statement
    ensures { result ≡ making loaded.now }
{
    Statement::Matrix {
        domain: loaded.domain,
        nrows: loaded.nrows,
        ncols: loaded.ncols,
    }
}

/// The monoid of a build of this domain: the sum of numbers, or the union.
fn sum_of(domain: Domain) -> Monoid
    ensures { result ≡ sum_of domain }
{
    match domain {
        Domain::Bool => Monoid::Lor,
        Domain::Uint64 => Monoid::Plus,
    }
}

/// The statement that fills the matrix of a load, which stands for this name. `AllocError` where memory is refused to its list.
pub(crate) fn filling(name: usize, loaded: Loaded) -> Result<Statement, AllocError>
    ensures { IfOk result (λ statement. statement ≡ filling name loaded) }
{
    Ok(Statement::BuildMatrix {
        name,
        tuples: MatrixTuples::from_vec(loaded.tuples.into_vec())?,
        dup: sum_of(loaded.domain),
    })
}
