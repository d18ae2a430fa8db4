//! Scripts and their trees, each node with its place. Which scripts are refused, and where, is in
//! `checks/rows`.

use crate::shown::show_statement;
use mob_grammar::laws::{few_nodes, one_first_wrong, one_tree};
use mob_lexemes::laws::marks_are_read;
use mob_parse::laws::one_refusal;
use mob_parse::script::parse;
use std::alloc::{AllocError, Global};

// The statements of a script, in order.
fn shown(alloc: Global, script: &str) -> Result<String, AllocError> {
    let mut into = String::new(alloc);
    if script.len() > 1000 {
        return Ok(into);
    }
    match parse(alloc, script.as_bytes()) {
        Err(_) => into.push_str("refused")?,
        Ok(script) => {
            for statement in script.statements.as_slice() {
                show_statement(alloc, statement, &mut into)?;
            }
        }
    }
    Ok(into)
}

// Expressions, each as the one item of a SELECT.
static EXPRESSIONS: [(&str, &str); 18] = [
    ("SELECT a + 1 * 2", "select +@9[ a@7 *@13[ 1@11 2@15]];"),
    ("select a-b-c", "select -@10[ -@8[ a@7 b@9] c@11];"),
    (
        "SELECT a / b * c - d + 1",
        "select +@21[ -@17[ *@13[ /@9[ a@7 b@11] c@15] d@19] 1@23];",
    ),
    (
        "SELECT (a + b) * -(c)",
        "select *@15[ +@10[ a@8 b@12] -@17[ c@19]];",
    ),
    ("SELECT - + ((1))", "select -@7[ +@9[ 1@13]];"),
    (
        "SELECT NOT a = 1 OR b AND c",
        "select OR@17[ NOT@7[ =@13[ a@11 1@15]] AND@22[ b@20 c@26]];",
    ),
    (
        "SELECT a OR b OR NOT NOT c AND d AND e",
        "select OR@14[ OR@9[ a@7 b@12] AND@33[ AND@27[ NOT@17[ NOT@21[ c@25]] d@31] e@37]];",
    ),
    (
        "SELECT a IS NOT NULL IS NULL",
        "select IS NULL@21[ IS NOT NULL@9[ a@7]];",
    ),
    (
        "SELECT NOT a = b #= ~c + d * -e::int IS NULL",
        "select NOT@7[ IS NULL@37[ =@13[ a@11 #=@17[ b@15 ~@20[ +@23[ c@21 *@27[ d@25 -@29[ ::int@33@31[ e@30]]]]]]]]];",
    ),
    (
        "SELECT ~~a #= b && c",
        "select &&@16[ #=@11[ ~@7[ ~@8[ a@9]] b@14] c@19];",
    ),
    ("SELECT -x::INT", "select -@7[ ::int@11@9[ x@8]];"),
    (
        "SELECT x::tint::geometry(Point)",
        "select ::geometry@16(point@25)@14[ ::tint@10@8[ x@7]];",
    ),
    ("SELECT f()", "select f@7;"),
    (
        "SELECT G(x, t.y, h(1))",
        "select g@7[ x@9 t@12.y@14@12 h@17[ 1@19]];",
    ),
    ("SELECT tint '[1@2001]'", "select tint@7'[1@2001]@12;"),
    (
        "SELECT geometry(Point) 'P'",
        "select geometry@7(point@16)'P@23;",
    ),
    ("SELECT 'it''s'", "select 'it's@7;"),
    (
        "SELECT 1.5e3, TRUE, FALSE, NULL",
        "select 1.5e3@7; TRUE@14; FALSE@20; NULL@27;",
    ),
];

// Each sign between two operands.
static SIGNS: [(&str, &str); 31] = [
    ("SELECT a #= b", "select #=@9[ a@7 b@12];"),
    ("SELECT a #<> b", "select #<>@9[ a@7 b@13];"),
    ("SELECT a #< b", "select #<@9[ a@7 b@12];"),
    ("SELECT a #<= b", "select #<=@9[ a@7 b@13];"),
    ("SELECT a #> b", "select #>@9[ a@7 b@12];"),
    ("SELECT a #>= b", "select #>=@9[ a@7 b@13];"),
    ("SELECT a ?= b", "select ?=@9[ a@7 b@12];"),
    ("SELECT a ?<> b", "select ?<>@9[ a@7 b@13];"),
    ("SELECT a ?< b", "select ?<@9[ a@7 b@12];"),
    ("SELECT a ?<= b", "select ?<=@9[ a@7 b@13];"),
    ("SELECT a ?> b", "select ?>@9[ a@7 b@12];"),
    ("SELECT a ?>= b", "select ?>=@9[ a@7 b@13];"),
    ("SELECT a %= b", "select %=@9[ a@7 b@12];"),
    ("SELECT a %<> b", "select %<>@9[ a@7 b@13];"),
    ("SELECT a %< b", "select %<@9[ a@7 b@12];"),
    ("SELECT a %<= b", "select %<=@9[ a@7 b@13];"),
    ("SELECT a %> b", "select %>@9[ a@7 b@12];"),
    ("SELECT a %>= b", "select %>=@9[ a@7 b@13];"),
    ("SELECT a = b", "select =@9[ a@7 b@11];"),
    ("SELECT a <> b", "select <>@9[ a@7 b@12];"),
    ("SELECT a != b", "select <>@9[ a@7 b@12];"),
    ("SELECT a < b", "select <@9[ a@7 b@11];"),
    ("SELECT a <= b", "select <=@9[ a@7 b@12];"),
    ("SELECT a > b", "select >@9[ a@7 b@11];"),
    ("SELECT a >= b", "select >=@9[ a@7 b@12];"),
    ("SELECT a <-> b", "select <->@9[ a@7 b@13];"),
    ("SELECT a |=| b", "select |=|@9[ a@7 b@13];"),
    ("SELECT a & b", "select &@9[ a@7 b@11];"),
    ("SELECT a | b", "select |@9[ a@7 b@11];"),
    ("SELECT a || b", "select ||@9[ a@7 b@12];"),
    ("SELECT a && b", "select &&@9[ a@7 b@12];"),
];

// Whole statements and scripts.
static STATEMENTS: [(&str, &str); 22] = [
    ("", "."),
    (";;", "..."),
    ("-- nothing\nSELECT 1;", "select 1@18;."),
    (
        "; SELECT 1 ;; CREATE TABLE t (a int)",
        ".select 1@9;.table t@27; a@30 int@32;",
    ),
    (
        "CREATE TABLE t (a int, p geometry(Point))",
        "table t@13; a@16 int@18; p@23 geometry@25(point@34);",
    ),
    (
        "CREATE INDEX i ON t USING GIST (pos)",
        "index i@13 on t@18.pos@32;",
    ),
    (
        "INSERT INTO t VALUES (1, -2), ('x', TRUE, FALSE), (tint '1@0', NULL)",
        "insert t@12; row@21 1@22 -@25[ 2@26]; row@30 'x@31 TRUE@36 FALSE@42; row@50 tint@51'1@0@56 NULL@63;",
    ),
    (
        "INSERT INTO t VALUES (+ 2.5, geometry(Point) 'P')",
        "insert t@12; row@21 +@22[ 2.5@24] geometry@29(point@38)'P@45;",
    ),
    (
        "COPY t FROM 'a.csv' WITH (FORMAT CSV, HEADER TRUE)",
        "copy t@5 'a.csv@12;",
    ),
    (
        "COPY t FROM 'it''s' WITH (FORMAT CSV, HEADER)",
        "copy t@5 'it's@12;",
    ),
    (
        "COPY t FROM 'a.csv' DELIMITER ',' CSV HEADER",
        "copy t@5 'a.csv@12 delimiter ',@30;",
    ),
    (
        "EXPLAIN SELECT * FROM t AS a, u b, v WHERE x ORDER BY y DESC, z ASC, -w LIMIT 3",
        "explain select *@15; from t@22 as a@27; from u@30 as b@32; from v@35; where x@43; by y@54 desc; by z@62; by -@69[ w@70]; limit 3@78;",
    ),
    (
        "SELECT DISTINCT a AS b, * FROM t",
        "select distinct a@16 as b@21; *@24; from t@31;",
    ),
    (
        "SELECT 1 WHERE a < 2 LIMIT 10",
        "select 1@7; where <@17[ a@15 2@19]; limit 10@27;",
    ),
    ("SELECT a ORDER BY 1", "select a@7; by 1@18;"),
    ("SELECT a b", "refused"),
    (
        "SELECT count(*) AS n, Count FROM t LEFT JOIN u v ON a = 1, w",
        "select count(*)@7 as n@19; count@22; from t@33; from u@45 as v@47; on =@54[ a@52 1@56]; from w@59;",
    ),
    (
        "SELECT 1 FROM a LEFT JOIN b ON TRUE LEFT JOIN c ON FALSE, d",
        "select 1@7; from a@14; from b@26; on TRUE@31; from c@46; on FALSE@51; from d@58;",
    ),
    (
        "DELETE FROM t WHERE NOT a; DELETE FROM u",
        "delete t@12; where NOT@20[ a@24];delete u@39;",
    ),
    (
        "SELECT a, sum(b) FROM t GROUP BY a, t.c ORDER BY a",
        "select a@7; sum@10[ b@14]; from t@22; group a@33; group t@36.c@38@36; by a@49;",
    ),
    (
        "SELECT count (x), COUNT ( * )",
        "select count@7[ x@14]; count(*)@18;",
    ),
    ("SELECT count(*", "refused"),
];

fn is_shown(alloc: Global, script: &str, wanted: &str) -> bool {
    match &shown(alloc, script) {
        Ok(tree) => tree.as_str() == wanted,
        Err(_) => false,
    }
}

#[test]
fn expressions_have_their_trees(rt: HostRuntime) {
    for (script, wanted) in &EXPRESSIONS {
        assert!(rt; is_shown(rt.alloc(), script, wanted), "{script}");
    }
}

#[test]
fn signs_have_their_trees(rt: HostRuntime) {
    for (script, wanted) in &SIGNS {
        assert!(rt; is_shown(rt.alloc(), script, wanted), "{script}");
    }
}

#[test]
fn statements_have_their_trees(rt: HostRuntime) {
    for (script, wanted) in &STATEMENTS {
        assert!(rt; is_shown(rt.alloc(), script, wanted), "{script}");
    }
}

#[test]
fn laws_are_called() {
    one_tree();
    one_first_wrong();
    few_nodes();
    marks_are_read();
    one_refusal();
}
