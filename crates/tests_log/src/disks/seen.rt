//! What a connection shows of the tables of a log.

use sqlite::{Alter, Connection};

/// A log of version 1 in its first incarnation, with the transaction (1, 1) and a branch of (1, 2).
pub(crate) const VERSION_1: &str = "BEGIN; \
    CREATE TABLE tm_meta (k INTEGER PRIMARY KEY CHECK (k = 1), version INTEGER NOT NULL, \
    incarnation INTEGER NOT NULL); \
    CREATE TABLE decision (inc INTEGER NOT NULL, seq INTEGER NOT NULL, PRIMARY KEY (inc, seq)); \
    CREATE TABLE heuristic (inc INTEGER NOT NULL, seq INTEGER NOT NULL, thread INTEGER NOT NULL, \
    rm INTEGER NOT NULL, how INTEGER NOT NULL, PRIMARY KEY (inc, seq, thread, rm), \
    CHECK (how >= 5 AND how <= 8)); \
    INSERT INTO tm_meta (k, version, incarnation) VALUES (1, 1, 1); \
    INSERT INTO decision (inc, seq) VALUES (1, 1); \
    INSERT INTO heuristic (inc, seq, thread, rm, how) VALUES (1, 2, 0, 3, 6); \
    COMMIT";

/// The tables of a database, and how many rows they have. Of decisions and heuristics only the rows
/// of `VERSION_1` count, and any other row counts as -1.
#[derive(Clone, Copy, PartialEq, Eq)]
pub(crate) struct Seen {
    pub tables: i64,
    pub version: i64,
    pub incarnation: i64,
    pub decisions: i64,
    pub heuristics: i64,
    pub participants: i64,
}

pub(crate) const BLANK: Seen = Seen {
    tables: 0,
    version: 0,
    incarnation: 0,
    decisions: 0,
    heuristics: 0,
    participants: 0,
};

/// A new log.
pub(crate) const EMPTY: Seen = Seen {
    tables: 4,
    version: 2,
    ..BLANK
};

/// The log of `VERSION_1`.
pub(crate) const OLD: Seen = Seen {
    tables: 3,
    version: 1,
    incarnation: 1,
    decisions: 1,
    heuristics: 1,
    ..BLANK
};

/// The same log once it is migrated.
pub(crate) const MIGRATED: Seen = Seen {
    tables: 4,
    version: 2,
    ..OLD
};

/// The number that a query answers, or 0 if it is refused.
fn number<S: Alter>(conn: &mut Connection<S>, sql: &str) -> i64 {
    match conn.query_row(sql, &[]) {
        Ok(row) => row.get(0).unwrap_or(0),
        Err(_) => 0,
    }
}

/// What a connection shows.
pub(crate) fn look<S: Alter>(conn: &mut Connection<S>) -> Seen {
    Seen {
        tables: number(
            conn,
            "SELECT count(*) FROM sqlite_schema WHERE type = 'table'",
        ),
        version: number(conn, "SELECT version FROM tm_meta"),
        incarnation: number(conn, "SELECT incarnation FROM tm_meta"),
        decisions: number(
            conn,
            "SELECT sum(CASE WHEN inc = 1 AND seq = 1 THEN 1 ELSE -1 END) FROM decision",
        ),
        heuristics: number(
            conn,
            "SELECT sum(CASE WHEN inc = 1 AND seq = 2 AND thread = 0 AND rm = 3 AND how = 6 \
            THEN 1 ELSE -1 END) FROM heuristic",
        ),
        participants: number(conn, "SELECT count(*) FROM participant"),
    }
}
