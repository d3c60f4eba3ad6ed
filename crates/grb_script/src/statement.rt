//! Statements: the lines that become calls.
ghost use Rattle.std.specs.Prelude.{◌≡◌, ◌≢◌, [], ◌∷◌, Some, Ok, IfOk, IfErr, map};
ghost use Rattle.std.specs.Option.{ok_or};
ghost use Rattle.grb_script.specs.Names.{name_found};
ghost use Rattle.grb_words.specs.declared.keyword.Keyword.TheVariants as keywords;
ghost use Rattle.grb_words.specs.Form.{BuildForm, form_of, form_with, matrix_form, vector_form, dup_form, whole_form, placed_form, set_form, build_form, total_form, wait_form, diag_form};
ghost use Rattle.grb_script.specs.Reading.{reading, saying, set_at, remove_at, get_at, resize_to, diag_of, IsReading, IsWhyUnread};

use crate::ewise::{Elementwise, ewise};
use crate::names::{Names, Sort};
use crate::product::{Product, Reduction, read_product, read_reduction};
use crate::term::{
    Application, KroneckerProduct, Selection, Transposition, apply, kronecker, select, transpose,
};
use grb_call::{MatrixTuples, VectorTuples, WaitMode};
use grb_core::{Diagonal, Domain, Monoid, Value};
use grb_words::{
    FaultKind, Indices, Keyword, Placed, Unread, Version, Whole, diagonal_of, indices_and_value_of,
    indices_of, matrix_tuples, values, vector_tuples, word,
};
use std::alloc::Global;

/// One statement of a script. Names stand as their numbers: the n-th name that stands in the section, for a matrix or a vector, has the
/// number n, from 0, those of main before those of the section. Indices begin at 0.
#[derive(PartialEq, Eq, Drop)]
pub enum Statement {
    /// `matrix NAME DOMAIN R C` makes a matrix, and the next name for it.
    Matrix {
        domain: Domain,
        nrows: u64,
        ncols: u64,
    },
    /// `vector NAME DOMAIN N` makes a vector, and the next name for it.
    Vector {
        domain: Domain,
        size: u64,
    },
    /// `dup NAME NAME` makes a copy of the object of the second name, and the next name for it. The name here is the second.
    Dup {
        name: usize,
        sort: Sort,
    },
    /// `free NAME`. The name keeps standing.
    Free {
        name: usize,
        sort: Sort,
    },
    /// `nvals NAME`.
    Nvals {
        name: usize,
        sort: Sort,
    },
    /// `size NAME`.
    Size {
        name: usize,
        sort: Sort,
    },
    /// `clear NAME`.
    Clear {
        name: usize,
        sort: Sort,
    },
    /// `set NAME I J VALUE`.
    SetMatrix {
        name: usize,
        i: u64,
        j: u64,
        value: Value,
    },
    /// `set NAME I VALUE`.
    SetVector {
        name: usize,
        i: u64,
        value: Value,
    },
    /// `remove NAME I J`.
    RemoveMatrix {
        name: usize,
        i: u64,
        j: u64,
    },
    /// `remove NAME I`.
    RemoveVector {
        name: usize,
        i: u64,
    },
    /// `get NAME I J`.
    GetMatrix {
        name: usize,
        i: u64,
        j: u64,
    },
    /// `get NAME I`.
    GetVector {
        name: usize,
        i: u64,
    },
    /// `resize NAME R C`.
    ResizeMatrix {
        name: usize,
        nrows: u64,
        ncols: u64,
    },
    /// `resize NAME N`.
    ResizeVector {
        name: usize,
        size: u64,
    },
    /// `build NAME MONOID I J VALUE ..`.
    BuildMatrix {
        name: usize,
        tuples: MatrixTuples,
        dup: Monoid,
    },
    /// `build NAME MONOID I VALUE ..`.
    BuildVector {
        name: usize,
        tuples: VectorTuples,
        dup: Monoid,
    },
    /// `ewiseadd NAME NAME NAME OP OPTIONS`.
    EwiseAdd(Elementwise),
    /// `ewisemult NAME NAME NAME OP OPTIONS`.
    EwiseMult(Elementwise),
    /// `mxv NAME NAME NAME SEMIRING OPTIONS`.
    Mxv(Product),
    /// `vxm NAME NAME NAME SEMIRING OPTIONS`.
    Vxm(Product),
    /// `mxm NAME NAME NAME SEMIRING OPTIONS`.
    Mxm(Product),
    /// `reduce NAME NAME MONOID OPTIONS`.
    Reduce(Reduction),
    /// `total NAME MONOID`.
    Total {
        name: usize,
        sort: Sort,
        monoid: Monoid,
    },
    /// `wait NAME MODE`.
    Wait {
        name: usize,
        sort: Sort,
        mode: WaitMode,
    },
    /// `transpose NAME NAME OPTIONS`.
    Transpose(Transposition),
    /// `apply NAME NAME FUNCTION OPTIONS`.
    Apply(Application),
    /// `select NAME NAME TEST OPTIONS`.
    Select(Selection),
    /// `kronecker NAME NAME NAME OP OPTIONS`.
    Kronecker(KroneckerProduct),
    /// `diag NAME NAME D` makes a matrix with the vector of the second name on a diagonal, and the next name for it. The name here is the
    /// second.
    Diag {
        name: usize,
        diagonal: Diagonal,
    },
    /// `tuples NAME`.
    Tuples {
        name: usize,
        sort: Sort,
    },
}

/// The number and the sort of the name that a statement uses.
pub(crate) fn used(name: &[u8], names: &Names) -> Result<(usize, Sort), FaultKind>
    ensures { result ≡ ok_or (name_found names.now name.now) FaultKind.UnknownName }
{
    names.find(name).ok_or(FaultKind::UnknownName)
}

/// `matrix NAME DOMAIN R C`, by each of its words.
fn matrix_of(
    name: &[u8],
    domain: &[u8],
    nrows: &[u8],
    ncols: &[u8],
    names: &mut Names,
) -> Result<Statement, Unread>
    ensures read { IfOk result (λ s. IsReading names.old (matrix_form name.now (domain.now ∷ nrows.now ∷ ncols.now ∷ [])) s names.new) }
    ensures fault { IfErr result (IsWhyUnread names.old (matrix_form name.now (domain.now ∷ nrows.now ∷ ncols.now ∷ []))) }
{
    let Some(domain) = word::domain(domain) else {
        return Err(Unread::Fault(FaultKind::Statement));
    };
    let Some(nrows) = word::number(nrows) else {
        return Err(Unread::Fault(FaultKind::Statement));
    };
    let Some(ncols) = word::number(ncols) else {
        return Err(Unread::Fault(FaultKind::Statement));
    };
    if names.find(name).is_some() {
        return Err(Unread::Fault(FaultKind::NameTaken));
    }
    names.make(name, Sort::Matrix)?;
    Ok(Statement::Matrix {
        domain,
        nrows,
        ncols,
    })
}

/// `matrix NAME DOMAIN R C`.
fn matrix(name: &[u8], others: &[&[u8]], names: &mut Names) -> Result<Statement, Unread>
    ensures read { IfOk result (λ s. IsReading names.old (matrix_form name.now (map (λ word. word.now) others.now)) s names.new) }
    ensures fault { IfErr result (IsWhyUnread names.old (matrix_form name.now (map (λ word. word.now) others.now))) }
{
    let [domain, nrows, ncols] = others else {
        return Err(Unread::Fault(FaultKind::Statement));
    };
    matrix_of(name, domain, nrows, ncols, names)
}

/// `vector NAME DOMAIN N`, by each of its words.
fn vector_of(
    name: &[u8],
    domain: &[u8],
    size: &[u8],
    names: &mut Names,
) -> Result<Statement, Unread>
    ensures read { IfOk result (λ s. IsReading names.old (vector_form name.now (domain.now ∷ size.now ∷ [])) s names.new) }
    ensures fault { IfErr result (IsWhyUnread names.old (vector_form name.now (domain.now ∷ size.now ∷ []))) }
{
    let Some(domain) = word::domain(domain) else {
        return Err(Unread::Fault(FaultKind::Statement));
    };
    let Some(size) = word::number(size) else {
        return Err(Unread::Fault(FaultKind::Statement));
    };
    if names.find(name).is_some() {
        return Err(Unread::Fault(FaultKind::NameTaken));
    }
    names.make(name, Sort::Vector)?;
    Ok(Statement::Vector { domain, size })
}

/// `vector NAME DOMAIN N`.
fn vector(name: &[u8], others: &[&[u8]], names: &mut Names) -> Result<Statement, Unread>
    ensures read { IfOk result (λ s. IsReading names.old (vector_form name.now (map (λ word. word.now) others.now)) s names.new) }
    ensures fault { IfErr result (IsWhyUnread names.old (vector_form name.now (map (λ word. word.now) others.now))) }
{
    let [domain, size] = others else {
        return Err(Unread::Fault(FaultKind::Statement));
    };
    vector_of(name, domain, size, names)
}

/// `dup NAME NAME`.
fn dup(name: &[u8], others: &[&[u8]], names: &mut Names) -> Result<Statement, Unread>
    ensures read { IfOk result (λ s. IsReading names.old (dup_form name.now (map (λ word. word.now) others.now)) s names.new) }
    ensures fault { IfErr result (IsWhyUnread names.old (dup_form name.now (map (λ word. word.now) others.now))) }
{
    let [source] = others else {
        return Err(Unread::Fault(FaultKind::Statement));
    };
    if !word::is_name(source) {
        return Err(Unread::Fault(FaultKind::Statement));
    }
    if names.find(name).is_some() {
        return Err(Unread::Fault(FaultKind::NameTaken));
    }
    let Some((source, sort)) = names.find(source) else {
        return Err(Unread::Fault(FaultKind::UnknownName));
    };
    names.make(name, sort)?;
    Ok(Statement::Dup { name: source, sort })
}

/// The statement that makes a matrix with an object on this diagonal, if the object is a vector.
fn diag_of(name: usize, sort: Sort, diagonal: Diagonal) -> Result<Statement, FaultKind>
    ensures { result ≡ diag_of name sort diagonal }
{
    match sort {
        Sort::Vector => Ok(Statement::Diag { name, diagonal }),
        Sort::Matrix => Err(FaultKind::WrongKind),
    }
}

/// `diag NAME NAME D`, by each of its words.
fn diag_by_words(
    name: &[u8],
    vector: &[u8],
    diagonal: &[u8],
    names: &mut Names,
) -> Result<Statement, Unread>
    ensures read { IfOk result (λ s. IsReading names.old (diag_form name.now (vector.now ∷ diagonal.now ∷ [])) s names.new) }
    ensures fault { IfErr result (IsWhyUnread names.old (diag_form name.now (vector.now ∷ diagonal.now ∷ []))) }
{
    if !word::is_name(vector) {
        return Err(Unread::Fault(FaultKind::Statement));
    }
    let Some(diagonal) = diagonal_of(diagonal) else {
        return Err(Unread::Fault(FaultKind::Statement));
    };
    if names.find(name).is_some() {
        return Err(Unread::Fault(FaultKind::NameTaken));
    }
    let Some((vector, sort)) = names.find(vector) else {
        return Err(Unread::Fault(FaultKind::UnknownName));
    };
    let statement = diag_of(vector, sort, diagonal)?;
    names.make(name, Sort::Matrix)?;
    Ok(statement)
}

/// `diag NAME NAME D`.
fn diag(name: &[u8], others: &[&[u8]], names: &mut Names) -> Result<Statement, Unread>
    ensures read { IfOk result (λ s. IsReading names.old (diag_form name.now (map (λ word. word.now) others.now)) s names.new) }
    ensures fault { IfErr result (IsWhyUnread names.old (diag_form name.now (map (λ word. word.now) others.now))) }
{
    let [vector, diagonal] = others else {
        return Err(Unread::Fault(FaultKind::Statement));
    };
    diag_by_words(name, vector, diagonal, names)
}

/// `free NAME`, `nvals NAME`, `size NAME`, `clear NAME` or `tuples NAME`.
fn whole(whole: Whole, name: &[u8], others: &[&[u8]], names: &Names) -> Result<Statement, FaultKind>
    ensures { result ≡ reading names.now (whole_form whole name.now (map (λ word. word.now) others.now)) }
{
    if !others.is_empty() {
        return Err(FaultKind::Statement);
    }
    let (name, sort) = used(name, names)?;
    Ok(match whole {
        Whole::Free => Statement::Free { name, sort },
        Whole::Nvals => Statement::Nvals { name, sort },
        Whole::Size => Statement::Size { name, sort },
        Whole::Clear => Statement::Clear { name, sort },
        Whole::Tuples => Statement::Tuples { name, sort },
    })
}

/// The remove at these indices, if they are as many as the sort of the name has.
fn remove_at(name: usize, sort: Sort, indices: Indices) -> Result<Statement, FaultKind>
    ensures { result ≡ remove_at name sort indices }
{
    match (sort, indices) {
        (Sort::Matrix, Indices::Two(i, j)) => Ok(Statement::RemoveMatrix { name, i, j }),
        (Sort::Vector, Indices::One(i)) => Ok(Statement::RemoveVector { name, i }),
        _ => Err(FaultKind::WrongKind),
    }
}

/// The get at these indices, if they are as many as the sort of the name has.
fn get_at(name: usize, sort: Sort, indices: Indices) -> Result<Statement, FaultKind>
    ensures { result ≡ get_at name sort indices }
{
    match (sort, indices) {
        (Sort::Matrix, Indices::Two(i, j)) => Ok(Statement::GetMatrix { name, i, j }),
        (Sort::Vector, Indices::One(i)) => Ok(Statement::GetVector { name, i }),
        _ => Err(FaultKind::WrongKind),
    }
}

/// The resize to these dimensions, if they are as many as the sort of the name has.
fn resize_to(name: usize, sort: Sort, indices: Indices) -> Result<Statement, FaultKind>
    ensures { result ≡ resize_to name sort indices }
{
    match (sort, indices) {
        (Sort::Matrix, Indices::Two(nrows, ncols)) => {
            Ok(Statement::ResizeMatrix { name, nrows, ncols })
        }
        (Sort::Vector, Indices::One(size)) => Ok(Statement::ResizeVector { name, size }),
        _ => Err(FaultKind::WrongKind),
    }
}

/// `remove NAME INDICES`, `get NAME INDICES` or `resize NAME INDICES`.
fn placed(
    placed: Placed,
    name: &[u8],
    others: &[&[u8]],
    names: &Names,
) -> Result<Statement, FaultKind>
    ensures { result ≡ reading names.now (placed_form placed name.now (map (λ word. word.now) others.now)) }
{
    let Some(indices) = indices_of(others) else {
        return Err(FaultKind::Statement);
    };
    let (name, sort) = used(name, names)?;
    match placed {
        Placed::Remove => remove_at(name, sort, indices),
        Placed::Get => get_at(name, sort, indices),
        Placed::Resize => resize_to(name, sort, indices),
    }
}

/// The set at these indices, if they are as many as the sort of the name has.
fn set_at(name: usize, sort: Sort, indices: Indices, value: Value) -> Result<Statement, FaultKind>
    ensures { result ≡ set_at name sort indices value }
{
    match (sort, indices) {
        (Sort::Matrix, Indices::Two(i, j)) => Ok(Statement::SetMatrix { name, i, j, value }),
        (Sort::Vector, Indices::One(i)) => Ok(Statement::SetVector { name, i, value }),
        _ => Err(FaultKind::WrongKind),
    }
}

/// `set NAME INDICES VALUE`.
fn set(name: &[u8], others: &[&[u8]], names: &Names) -> Result<Statement, FaultKind>
    ensures { result ≡ reading names.now (set_form name.now (map (λ word. word.now) others.now)) }
{
    let Some((indices, value)) = indices_and_value_of(others) else {
        return Err(FaultKind::Statement);
    };
    let (name, sort) = used(name, names)?;
    set_at(name, sort, indices, value)
}

/// `build NAME MONOID ..` by its values.
fn build_of(
    alloc: Global,
    name: &[u8],
    dup: Monoid,
    values: &[Value],
    names: &Names,
) -> Result<Statement, Unread>
    ensures says { IfOk result (λ s. saying names.now (BuildForm name.now dup values.now) ≡ Ok s) }
    ensures fault { IfErr result (IsWhyUnread names.now (Some (BuildForm name.now dup values.now))) }
{
    let (name, sort) = used(name, names)?;
    match sort {
        Sort::Matrix => {
            let tuples = matrix_tuples(alloc, values)?;
            Ok(Statement::BuildMatrix { name, tuples, dup })
        }
        Sort::Vector => {
            let tuples = vector_tuples(alloc, values)?;
            Ok(Statement::BuildVector { name, tuples, dup })
        }
    }
}

/// `build NAME MONOID ..`, where the list after the monoid is apart.
fn build_by_words(
    alloc: Global,
    name: &[u8],
    monoid: &[u8],
    list: &[&[u8]],
    names: &Names,
) -> Result<Statement, Unread>
    ensures says { IfOk result (λ s. reading names.now (build_form name.now (monoid.now ∷ map (λ word. word.now) list.now)) ≡ Ok s) }
    ensures fault { IfErr result (IsWhyUnread names.now (build_form name.now (monoid.now ∷ map (λ word. word.now) list.now))) }
{
    let Some(dup) = word::monoid(monoid) else {
        return Err(Unread::Fault(FaultKind::Statement));
    };
    let values = values(alloc, list)?;
    build_of(alloc, name, dup, &values, names)
}

/// `build NAME MONOID ..`.
fn build(alloc: Global, name: &[u8], others: &[&[u8]], names: &Names) -> Result<Statement, Unread>
    ensures says { IfOk result (λ s. reading names.now (build_form name.now (map (λ word. word.now) others.now)) ≡ Ok s) }
    ensures fault { IfErr result (IsWhyUnread names.now (build_form name.now (map (λ word. word.now) others.now))) }
{
    let [monoid, list @ ..] = others else {
        return Err(Unread::Fault(FaultKind::Statement));
    };
    build_by_words(alloc, name, monoid, list, names)
}

/// `total NAME MONOID`.
fn total(name: &[u8], others: &[&[u8]], names: &Names) -> Result<Statement, FaultKind>
    ensures { result ≡ reading names.now (total_form name.now (map (λ word. word.now) others.now)) }
{
    let [monoid] = others else {
        return Err(FaultKind::Statement);
    };
    let Some(monoid) = word::monoid(monoid) else {
        return Err(FaultKind::Statement);
    };
    let (name, sort) = used(name, names)?;
    Ok(Statement::Total { name, sort, monoid })
}

/// `wait NAME MODE`.
fn wait(name: &[u8], others: &[&[u8]], names: &Names) -> Result<Statement, FaultKind>
    ensures { result ≡ reading names.now (wait_form name.now (map (λ word. word.now) others.now)) }
{
    let [mode] = others else {
        return Err(FaultKind::Statement);
    };
    let Some(mode) = word::wait_mode(mode) else {
        return Err(FaultKind::Statement);
    };
    let (name, sort) = used(name, names)?;
    Ok(Statement::Wait { name, sort, mode })
}

/// The statement that this keyword, this name and the words after them spell in a script of this version where these names stand, or what
/// is wrong with it. It makes no name, and its words are all that it says.
fn statement_on(
    version: Version,
    keyword: Keyword,
    name: &[u8],
    others: &[&[u8]],
    names: &Names,
) -> Result<Statement, FaultKind>
    requires matrix { keyword ≢ keywords.Matrix }
    requires vector { keyword ≢ keywords.Vector }
    requires dup { keyword ≢ keywords.Dup }
    requires build { keyword ≢ keywords.Build }
    requires diag { keyword ≢ keywords.Diag }
    ensures { result ≡ reading names.now (form_with version keyword name.now (map (λ word. word.now) others.now)) }
{
    match keyword {
        Keyword::Whole(word) => whole(word, name, others, names),
        Keyword::Placed(word) => placed(word, name, others, names),
        Keyword::Set => set(name, others, names),
        Keyword::Ewise(word) => ewise(version, word, name, others, names),
        Keyword::Multiply(word) => read_product(version, word, name, others, names),
        Keyword::Reduce => read_reduction(version, name, others, names),
        Keyword::Total => total(name, others, names),
        Keyword::Wait => wait(name, others, names),
        Keyword::Transpose => transpose(version, name, others, names),
        Keyword::Apply => apply(version, name, others, names),
        Keyword::Select => select(version, name, others, names),
        Keyword::Kronecker => kronecker(version, name, others, names),
        Keyword::Matrix | Keyword::Vector | Keyword::Dup | Keyword::Diag | Keyword::Build =>
            unreachable!(),
    }
}

/// The statement that this keyword, this name and the words after them spell in a script of this version where these names stand, or what
/// is wrong with it. The name that it makes joins the names.
fn statement_with(
    alloc: Global,
    version: Version,
    keyword: Keyword,
    name: &[u8],
    others: &[&[u8]],
    names: &mut Names,
) -> Result<Statement, Unread>
    ensures read { IfOk result (λ s. IsReading names.old (form_with version keyword name.now (map (λ word. word.now) others.now)) s names.new) }
    ensures fault { IfErr result (IsWhyUnread names.old (form_with version keyword name.now (map (λ word. word.now) others.now))) }
{
    match keyword {
        Keyword::Matrix => matrix(name, others, names),
        Keyword::Vector => vector(name, others, names),
        Keyword::Dup => dup(name, others, names),
        Keyword::Diag => diag(name, others, names),
        Keyword::Build => build(alloc, name, others, names),
        _ => Ok(statement_on(version, keyword, name, others, names)?),
    }
}

/// The statement that these words spell in a script of this version where these names stand, or what is wrong with it. The name that it
/// makes joins the names.
pub(crate) fn read_statement(
    alloc: Global,
    version: Version,
    words: &[&[u8]],
    names: &mut Names,
) -> Result<Statement, Unread>
    ensures read { IfOk result (λ s. IsReading names.old (form_of version (map (λ word. word.now) words.now)) s names.new) }
    ensures fault { IfErr result (IsWhyUnread names.old (form_of version (map (λ word. word.now) words.now))) }
{
    let [first, name, others @ ..] = words else {
        return Err(Unread::Fault(FaultKind::Statement));
    };
    if !word::is_name(name) {
        return Err(Unread::Fault(FaultKind::Statement));
    }
    let Some(keyword) = word::keyword_in(version, first) else {
        return Err(Unread::Fault(FaultKind::Statement));
    };
    statement_with(alloc, version, keyword, name, others, names)
}
