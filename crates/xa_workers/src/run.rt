//! Runs of jobs.
ghost use Rattle.std.specs.Prelude.{◌≡◌, ◌≢◌, ◌≤◌, ◌<◌, ◌∷◌, [], Err, IfErr, IfOk, IsOk, Ok, false, vec_len};
ghost use Rattle.xa_log.specs.Content.{last_number};
ghost use Rattle.xa_workers.specs.Faults.{end_of, first_told};
ghost use Rattle.xa_workers.specs.Fates.{AreInOrder, HaveFates, fates_of};
ghost use Rattle.xa_workers.specs.Jobs.{AreEndsOf, IsRunnable, ends_of, is_xid_of};
ghost use Rattle.xa_workers.specs.Outcomes.{AreLinesOf, IsOutcomeOf};
ghost use Rattle.xa_workers.specs.Rows.{CanBegin, HasRowsOf, Logs, no_rows, rows_of_jobs};
ghost use Rattle.xa_workers.specs.EndPairs.{ArePaired};

use crate::beginning::{Begun, begin};
use crate::brand::Run;
use crate::crew::Crew;
use crate::deal::{by_rm, by_thread, new_ends};
use crate::docket::Docket;
use crate::fault::Halt;
use crate::halts::{end_of, first_fault};
use crate::limits::JOB_LIMIT;
use crate::run_rows::{RunRows, write_rows};
use crate::serve::Served;
use crate::signals::Signals;
use crate::start::{Hands, Joined, Team, start_all, to_serve};
use crate::verify::{Work, verified_outcomes};
use crate::{Board, BoardSeat, Gate, Jobs, Outcomes, WorkFault};
use std::alloc::Global;
use std::marker::{Brand, PhantomData};
use std::sync::{Mutex, Wait};
use std::thread;
use std::thread::{Scope, Threads};
use std::time::Clock;
use xa_line::{Issuer, Taker};
use xa_log::DecisionLog;

/// What the workers left, if none ended before its work was done. Else the fault that comes first.
fn work_of<J: Run, L: Drop>(
    started: Result<(), Halt>,
    logged: Result<(), Halt>,
    joined: Joined<J>,
    run_rows: RunRows<L>,
) -> Result<Work<J, L>, WorkFault>
    // All ended well, those too that left nothing to work with.
    ensures started { IfOk result (λ _. IsOk started × IsOk logged) }
    ensures swept { IfOk result (λ _. IsOk joined.swept) }
    ensures served { IfOk result (λ _. IsOk joined.served) }
    ensures left { IfOk result (λ work. (joined.controlled ≡ Ok work.controlled)
        × (work.run_rows ≡ run_rows)) }

    ensures fault { IfErr result (λ fault. fault ≡ first_told (started ∷ logged
        ∷ end_of joined.controlled ∷ end_of joined.swept ∷ end_of joined.served ∷ [])) }
{
    let Joined {
        controlled,
        swept,
        served,
    } = joined;
    let fault = first_fault(&[
        started,
        logged,
        end_of(&controlled),
        end_of(&swept),
        end_of(&served),
    ]);
    match (started, logged, controlled, swept, served) {
        (Ok(()), Ok(()), Ok(controlled), Ok(_), Ok(_)) => Ok(Work {
            controlled,
            run_rows,
        }),
        _ => Err(fault),
    }
}

/// Starts all workers, writes the log in this thread, and joins all workers.
fn run_crew<
    's,
    E,
    J: Run + Send + Sync + 's,
    R: Threads + Wait + Clock + Sync,
    G: Gate + Sync,
    L: DecisionLog + Drop,
>(
    scope: &'s Scope<'s, E>,
    rt: &'s R,
    alloc: Global,
    crew: &'s Crew<'s, J, G>,
    served: &'s Vec<Mutex<Served<J>>>,
    hands: Hands<J>,
    mut run_rows: RunRows<L>,
) -> Result<Work<J, L>, WorkFault>
    requires seat { hands.seat.board ≡ crew.now.board.now.table }
    requires few { vec_len run_rows.written ≤ JOB_LIMIT }
    requires kept { HasRowsOf L.DecisionLog crew.now.jobs.now crew.now.incarnation run_rows }
    ensures first { IfOk result (λ work. work.run_rows.first ≡ run_rows.first) }
    ensures kept { IfOk result (λ work.
        HasRowsOf L.DecisionLog crew.now.jobs.now crew.now.incarnation work.run_rows) }
{
    let mut team = Team::new(alloc);
    let started = start_all(scope, rt, alloc, crew, served, hands, &mut team);
    if started.is_err() {
        crew.signals.stop();
    }
    let logged = write_rows(rt, alloc, crew, &mut run_rows);
    if logged.is_err() {
        crew.signals.stop();
    }
    let joined = team.joined(rt, alloc, crew);
    work_of(started, logged, joined, run_rows)
}

/// Runs all workers, and returns once all have ended.
fn run_all<
    J: Run + Send + Sync,
    R: Threads + Wait + Clock + Sync,
    G: Gate + Sync,
    L: DecisionLog + Drop,
>(
    rt: &R,
    alloc: Global,
    crew: &Crew<'_, J, G>,
    served: &Vec<Mutex<Served<J>>>,
    hands: Hands<J>,
    run_rows: RunRows<L>,
) -> Result<Work<J, L>, WorkFault>
    requires seat { hands.seat.board ≡ crew.now.board.now.table }
    requires few { vec_len run_rows.written ≤ JOB_LIMIT }
    requires kept { HasRowsOf L.DecisionLog crew.now.jobs.now crew.now.incarnation run_rows }
    ensures first { IfOk result (λ work. work.run_rows.first ≡ run_rows.first) }
    ensures kept { IfOk result (λ work.
        HasRowsOf L.DecisionLog crew.now.jobs.now crew.now.incarnation work.run_rows) }
{
    thread::scope(
        thread::scope_env(),
        rt,
        |scope| -> Result<Work<J, L>, WorkFault>
            requires seat { hands.seat.board ≡ crew.now.board.now.table }
            requires few { vec_len run_rows.written ≤ JOB_LIMIT }
            requires kept { HasRowsOf L.DecisionLog crew.now.jobs.now crew.now.incarnation
                run_rows }
            ensures first { IfOk result (λ work. work.run_rows.first ≡ run_rows.first) }
            ensures kept { IfOk result (λ work.
                HasRowsOf L.DecisionLog crew.entry.now.jobs.now
                crew.entry.now.incarnation work.run_rows) }
        { run_crew(scope, rt, alloc, crew, served, hands, run_rows) },
    )
}

/// Runs the jobs of a crew over a log that has begun, and over the two ends of each line: deals the
/// ends to the workers, runs all of them, and looks at what they left.
fn run_dealt<
    J: Run + Send + Sync,
    R: Threads + Wait + Clock + Sync,
    L: DecisionLog + Drop,
    G: Gate + Sync,
>(
    rt: &R,
    alloc: Global,
    crew: &Crew<'_, J, G>,
    seat: BoardSeat,
    begun: Begun<L>,
    issuers: Vec<Issuer>,
    takers: Vec<Taker>,
) -> Result<Outcomes<L>, WorkFault>
    requires seat { seat.board ≡ crew.now.board.now.table }
    requires some_rms { 0 < crew.now.jobs.now.rms }
    requires takers { takers.items ≡ J.takers }
    requires paired { ArePaired issuers.items J.takers }
    requires begun { Logs L.DecisionLog crew.now.incarnation no_rows begun.first.value begun.log }
    ensures ends { IfOk result (λ o. AreEndsOf crew.now.jobs.now o.ends.items) }
    ensures fates { IfOk result (λ o. o.fates.items
        ≡ fates_of crew.now.jobs.now crew.now.incarnation o.ends.items) }
    ensures rms { IfOk result (λ o. HaveFates crew.now.jobs.now crew.now.incarnation
        o.rms.items o.fates.items) }
    ensures lines { IfOk result (λ o. AreLinesOf crew.now.jobs.now o.lines.items) }
    ensures rows { IfOk result (λ o. Logs L.DecisionLog crew.now.incarnation
        (rows_of_jobs crew.now.jobs.now crew.now.incarnation o.ends.items)
        begun.first.value o.log) }
{
    let (jobs, incarnation) = (crew.jobs, crew.incarnation);
    let hands = Hands::<J> {
        threads: by_thread(alloc, jobs, issuers)?,
        seat,
    };
    let served = to_serve(alloc, jobs, incarnation, by_rm(alloc, jobs, takers)?)?;
    let run_rows = RunRows::new(alloc, jobs, incarnation, begun.first, begun.log)?;
    let work = run_all(rt, alloc, crew, &served, hands, run_rows)?;
    verified_outcomes(alloc, jobs, incarnation, work, served)
}

/// Runs the jobs over a log that has begun, and over the two ends of each line.
fn run_named<
    J: Run + Send + Sync,
    R: Threads + Wait + Clock + Sync,
    L: DecisionLog + Drop,
    G: Gate + Sync,
>(
    rt: &R,
    alloc: Global,
    jobs: &Jobs,
    begun: Begun<L>,
    gate: &G,
    issuers: Vec<Issuer>,
    takers: Vec<Taker>,
) -> Result<Outcomes<L>, WorkFault>
    requires few { vec_len jobs.now.votes ≤ JOB_LIMIT }
    requires some { 0 < jobs.now.threads }
    requires some_rms { 0 < jobs.now.rms }
    requires fits { begun.incarnation ≤ last_number }

    // What the run's type knows.
    requires own { J.is_own ≡ is_xid_of jobs.now begun.incarnation }
    requires takers { takers.items ≡ J.takers }
    requires paired { ArePaired issuers.items J.takers }
    requires begun { Logs L.DecisionLog begun.incarnation no_rows begun.first.value begun.log }

    // What the jobs came to, in the incarnation that the log gave.
    ensures ends { IfOk result (λ o. AreEndsOf jobs.now o.ends.items) }
    ensures fates { IfOk result (λ o. o.fates.items
        ≡ fates_of jobs.now begun.incarnation o.ends.items) }
    ensures rms { IfOk result (λ o. HaveFates jobs.now begun.incarnation
        o.rms.items o.fates.items) }
    ensures lines { IfOk result (λ o. AreLinesOf jobs.now o.lines.items) }
    ensures rows { IfOk result (λ o. Logs L.DecisionLog begun.incarnation
        (rows_of_jobs jobs.now begun.incarnation o.ends.items) begun.first.value o.log) }
{
    let signals = Signals::new(rt, alloc, jobs)?;
    let docket = Docket::new(alloc, jobs.threads)?;
    let (board, seat) = Board::new(alloc, jobs.votes.len())?;
    let crew = Crew::<J, G> {
        jobs,
        incarnation: begun.incarnation,
        gate,
        signals: &signals,
        board: &board,
        docket: &docket,
        run: PhantomData,
    };
    run_dealt(rt, alloc, &crew, seat, begun, issuers, takers)
}

/// Runs the jobs by two-phase commit with presumed rollback (XA, section 2.3): one worker for each
/// thread of control, one for each resource manager, one for the recovery if it sweeps them, and
/// this thread writes the log. All workers have ended when it returns.
///
/// A thread of control opens its lines, and sends the branches of each of its jobs xa_start, xa_end
/// and xa_prepare, all of them before it awaits the first answer. Once all votes are heard it
/// claims the job at the board, has its row written and settles the claim, and then sends xa_commit
/// to the branches that voted yes. A job with a no, and one whose claim isn't won, gets
/// xa_rollback. Rows that threads ask for at the same time are written at once.
///
/// What a job's last calls are answered is heard together with the votes of the thread's next job,
/// so that each job takes one round trip. All answers were heard when it returns outcomes.
///
/// A worker with nothing to do looks again for a while, yields, and then sleeps until it is woken,
/// a resource manager's worker for a millisecond at most. A thread of control that waits for an
/// answer serves its line itself, if the resource manager's worker doesn't look for calls. Before
/// it writes, the log's worker waits a little for further rows. The clock tells only how long
/// yields and writes take, and so how long is waited.
///
/// The clauses say what the jobs came to, for some incarnation that the log gave: `ends`, that each
/// job ended as its votes say, or was rolled back by the recovery; `plain`, that without a recovery
/// each ended as its votes say; `outcome`, the fates of all branches, that the resource managers
/// have these and no other branch, and that the log has the rows that it came with and one for each
/// committed job with a yes, with these branches as its participants; `order`, that the fates are
/// listed in the order of the identifiers; `lines`, that on each line each call was taken, and each
/// answer heard; `can_begin`, that a log over which no run can begin is told as Log and as nothing
/// else. After a fault nothing is said of the log.
///
/// - [`WorkFault::Memory`]: a request for memory outside of the log, or for a thread, was refused.
/// - [`WorkFault::Log`]: the log failed, for want of memory too, or no system starts over it: it
///   has no incarnation left, or holds a row or a record of the incarnation that it gave, or of a
///   later one.
/// - [`WorkFault::Stuck`]: a gate answered no to one worker 1,000,000 times in a row.
/// - [`WorkFault::Mixed`]: what the workers gave back doesn't agree.
///
/// Of several faults the first in this order is the answer.
#[tactic(auto, using(crate::proofs::Verification::can_begin))]
pub fn run_jobs<R: Threads + Wait + Clock + Sync, L: DecisionLog + Drop, G: Gate + Sync>(
    rt: &R,
    alloc: Global,
    jobs: &Jobs,
    log: L,
    gate: &G,
) -> Result<Outcomes<L>, WorkFault>
    requires { IsRunnable jobs.now }
    ensures ends { IfOk result (λ o. AreEndsOf jobs.now o.ends.items) }
    ensures plain { jobs.now.sweep ≡ false → IfOk result (λ o. o.ends.items ≡ ends_of jobs.now) }
    ensures order { IfOk result (λ o. AreInOrder o.fates.items) }
    ensures lines { IfOk result (λ o. AreLinesOf jobs.now o.lines.items) }
    ensures outcome { IfOk result (IsOutcomeOf L.DecisionLog jobs.now log) }
    ensures can_begin { result ≢ Err WorkFault.Log → CanBegin L.DecisionLog log }
{
    let begun = begin(log)?;
    let (issuers, takers) = new_ends(alloc, jobs)?;
    run_named::<Brand, R, L, G>(rt, alloc, jobs, begun, gate, issuers, takers)
}
