//! Rows through a whole system over a log in files that stop: at each call of either file. If a
//! step met the stop the log is taken out, its files are opened again as a crash left them, and the
//! log is given back; after the restart all branches end as the log says.

mod act;
mod recovery;
mod stops;
mod swaps;
mod table;
