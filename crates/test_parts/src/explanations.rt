//! What is told of faults and of refusals, which no contract says and which no script prints.
use crate::same::same;
use grb_explanations::{is_near, told_of_fault, told_of_refusals};
use grb_script::{ReadFault, ScriptFault, read_script};
use std::alloc::{AllocError, Global};

/// A script, and what is told of its first fault.
static FAULTS: [(&str, &str); 12] = [
    (
        "vector v1 uint64 5\nset v2 0 1\n",
        "  line 2: set v2 0 1\n  form: set NAME PLACE VALUE\n  \
        `v2` does not stand here; near it `v1` is a vector of uint64 of size 5, made on line 1\n",
    ),
    (
        "thread 1\nvector a bool 3\nthread 2\nfree a\n",
        "  line 4: free a\n  form: free NAME\n  \
        `a` does not stand here; line 2 makes it, in another section or later\n",
    ),
    (
        "nvals far\n",
        "  line 1: nvals far\n  form: nvals NAME\n  \
        `far` does not stand here, and no name near it does\n",
    ),
    (
        "matrix A bool 2 3\ndup A A\n",
        "  line 2: dup A A\n  `A` is a matrix of bool of 2 rows and 3 columns, made on line 1\n",
    ),
    (
        "load G a.mtx\nset G 1 1\n",
        "  line 2: set G 1 1\n  form: set NAME PLACE VALUE\n  \
        `G` is a matrix as its file spells it, made on line 1\n",
    ),
    (
        "matrix A bool 2 2\nmxm A A A lor.plus\n",
        "  line 2: mxm A A A lor.plus\n  form: mxm NAME NAME NAME SEMIRING OPTIONS\n  \
        OPTIONS: mask NAME, structure, comp, accum OP, replace, from version 2 on tran, and in version 3 tran1, in this order\n  \
        its MONOID is of bool, and its OP of uint64\n",
    ),
    (
        "vector v bool 2\ntuples v\n",
        "  line 2: tuples v\n  form: tuples NAME, in version 3\n",
    ),
    (
        "version 3\nmatrix A bool 2 2\nvector u bool 2\nmatrix M bool 2 2\nselect A u valueeq true mask M\n",
        "  line 5: select A u valueeq true mask M\n  \
        form: select NAME NAME TEST OPTIONS, in version 3 and without tran1\n  \
        OPTIONS: mask NAME, structure, comp, accum OP, replace, from version 2 on tran, and in version 3 tran1, in this order\n  \
        `A` is a matrix of bool of 2 rows and 2 columns, made on line 2\n  \
        `u` is a vector of bool of size 2, made on line 3\n  \
        `M` is a matrix of bool of 2 rows and 2 columns, made on line 4\n",
    ),
    (
        "version 3\nvector bool uint64 2\ndiag D bool -1\ndiag D bool 0\n",
        "  line 4: diag D bool 0\n  `D` is a matrix of uint64 of 3 rows and 3 columns, made on line 3\n",
    ),
    (
        "# first\nvectr v bool 2\n",
        "  line 2: vectr v bool 2\n  no line begins so; near it is vector\n",
    ),
    (
        "get\tv 0\n",
        "  line 1: get\\x09v 0\n  a byte other than 0x20 to 0x7E is shown as \\xNN\n",
    ),
    (
        "finally\nthread 1",
        "  line 2: thread 1\n  no line end stands after it\n",
    ),
];

/// A script, the lines that it printed, and what is told of those that are refusals.
static REFUSALS: [(&str, &str, &str); 4] = [
    ("vector v bool 2\nget v 0\n", "ok\nnone\n", ""),
    (
        "version 2\nvector v uint64 4\nresize v 9\nset v 9 1\nfree v\nsize v\n",
        "ok\nok\nGrB_INVALID_INDEX\nok\nGrB_UNINITIALIZED_OBJECT\n",
        "  line 4: set v 9 1\n  GrB_INVALID_INDEX: Give an index below the dimension; the first is 0.\n  \
        `v` is a vector of uint64 of size 9, made on line 2\n  \
        line 6: size v\n  GrB_UNINITIALIZED_OBJECT: Use the number of an object that was made and not freed.\n  \
        `v` is a vector of uint64 of size 9, made on line 2 and freed on line 5\n",
    ),
    (
        "matrix A bool 0 1\nvector m bool 3\nthread 1\newiseadd A A A lor mask A\nfinally\nclear m\n",
        "GrB_INVALID_VALUE\nok\nGrB_UNINITIALIZED_OBJECT\nok\n",
        "  line 1: matrix A bool 0 1\n  GrB_INVALID_VALUE: Give dimensions from 1 to 4,294,967,295.\n  \
        line 4: ewiseadd A A A lor mask A\n  \
        GrB_UNINITIALIZED_OBJECT: Use the number of an object that was made and not freed.\n  \
        `A` is a matrix of bool of 0 rows and 1 columns, whose making on line 1 was refused\n",
    ),
    (
        "version 3\nvector v bool 3\nset v 1 true\ndiag D v 2\ntuples D\nget D 5 0\nfree v\ndiag E v 0\ntuples E\n",
        "ok\nok\nok\ntuples 1 3 true\nGrB_INVALID_INDEX\nok\nGrB_UNINITIALIZED_OBJECT\nGrB_UNINITIALIZED_OBJECT\n",
        "  line 6: get D 5 0\n  GrB_INVALID_INDEX: Give an index below the dimension; the first is 0.\n  \
        `D` is a matrix of bool of 5 rows and 5 columns, made on line 4\n  \
        line 8: diag E v 0\n  GrB_UNINITIALIZED_OBJECT: Use the number of an object that was made and not freed.\n  \
        `v` is a vector of bool of size 3, made on line 2 and freed on line 7\n  \
        line 9: tuples E\n  GrB_UNINITIALIZED_OBJECT: Use the number of an object that was made and not freed.\n  \
        `E` is a matrix of bool of 3 rows and 3 columns, whose making on line 8 was refused\n",
    ),
];

/// The first fault of a script, if it has one.
fn fault_of(alloc: Global, script: &str) -> Option<ScriptFault> {
    match read_script(alloc, script.as_bytes()) {
        Err(ReadFault::Fault(fault)) => Some(fault),
        _ => None,
    }
}

#[test]
fn a_fault_is_told_with_its_line_its_form_and_its_names(rt: HostRuntime) -> Result<(), AllocError> {
    let alloc = rt.alloc();
    for (script, wanted) in &FAULTS {
        let Some(fault) = fault_of(alloc, *script) else {
            panic!(&rt; "no fault: {script}")
        };
        let told = told_of_fault(alloc, script.as_bytes(), fault)?;
        same(&rt, told.as_str(), *wanted, *script);
    }
    Ok(())
}

#[test]
fn a_refusal_is_told_with_its_hint_and_its_objects(rt: HostRuntime) -> Result<(), AllocError> {
    for (script, output, wanted) in &REFUSALS {
        let told = told_of_refusals(rt.alloc(), script.as_bytes(), output.as_bytes(), &[])?;
        same(&rt, told.as_str(), *wanted, *script);
    }
    Ok(())
}

#[test]
fn words_are_near_that_are_one_slip_apart(rt: HostRuntime) {
    let rows = [
        ("set", "sett", true),
        ("set", "se", true),
        ("set", "sat", true),
        ("set", "est", true),
        ("set", "set", false),
        ("set", "sets2", false),
        ("v", "w", false),
        ("abcd", "badc", false),
    ];
    for (one, other, wanted) in rows {
        let found = is_near(one.as_bytes(), other.as_bytes());
        same(&rt, found, wanted, (one, other));
    }
}
