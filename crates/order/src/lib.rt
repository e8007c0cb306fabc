// The order in which the vertices of a graph are taken: the ready one of lowest number first.
// A vertex is a number below n. In the matrix `deps` the byte at v * 40 + w is 0 where v depends on w; row v is read from the vertex at
// 1600 + v on.
#![tactic(auto)]

ghost use Rattle.std.specs.Prelude.{◌≡◌, ◌+◌, ◌<◌, ◌≤◌, length, get_or, set};
ghost use Rattle.order.specs.Order.{next};
ghost use Rattle.order.specs.Matrix.{marked, edge_of};
ghost use Rattle.order.specs.Memo.{Met, Resting, woken_by};
ghost use Rattle.order.specs.Answer.{Filled};

// The most vertices of a graph, and the bytes of a row.
pub const WIDTH: usize = 40;

// Where the matrix says from which vertex on each row is read.
pub const STARTS: usize = 1600;

// Notes that v waits for w, which is not done: row v is read from w on, and w wakes v, unless it wakes a lower vertex.
fn wait_for(deps: &mut [u8], wakes: &mut [u8], v: usize, w: usize)
    requires { (v < 40) × (w < 40) × (1640 ≤ length deps.old) × (w < length wakes.old) }
    ensures { (deps.new ≡ set deps.old (1600 + v) w) × (wakes.new ≡ woken_by wakes.old v w) }
{
    deps[STARTS + v] = w as u8;
    if v < wakes[w] as usize {
        wakes[w] = v as u8;
    }
}

// The ready vertex of lowest number, n where none is ready. Each vertex below `low` is done or waits for another, so the search starts
// there. Row v is read from where an earlier search stopped: so all searches together read each row once.
// The search over vertices, in it one over what each depends on, is left by its label with the vertex found, as docs/DECISIONS.md has its form.
fn ready_vertex(deps: &mut [u8], done: &[u8], wakes: &mut [u8], n: usize, low: usize) -> usize
    requires { (n ≤ 40) × (1640 ≤ length deps.old) × (n ≤ length done.now) × (n ≤ length wakes.old)
        × (low ≤ n) × Resting deps.old n done.now wakes.old low }
    ensures { (result ≡ next (edge_of deps.old) n (marked done.now))
        × Met deps.old n done.now deps.new
        × Resting deps.new n done.now wakes.new result }
{
    let mut v: usize = low;
    let found = 'search: loop {
        if v == n {
            break 'search n;
        }
        if done[v] == 0 {
            let mut w = deps[STARTS + v] as usize;
            loop {
                if n <= w {
                    break 'search v;
                }
                if deps[v * WIDTH + w] == 0 {
                    if done[w] == 0 {
                        wait_for(deps, wakes, v, w);
                        break;
                    }
                }
                w += 1;
            }
        }
        v += 1;
    };
    found
}

// Where the search starts once v is done: no vertex below v that v does not wake is ready.
fn start_after(wakes: &[u8], v: usize) -> usize
    requires { (v < 40) × (v < length wakes.now) }
    ensures { (result ≤ v + 1) × (result ≤ get_or wakes.now v 0) }
{
    usize::from(wakes[v]).min(v + 1)
}

// Takes the ready vertex of lowest number again and again, and writes each to the next byte of `out`.
fn write_order(deps: &mut [u8], n: usize, out: &mut [u8]) -> Option<usize>
    requires { (n ≤ 40) × (1640 ≤ length deps.old) × (n ≤ length out.old) }
    ensures { Filled deps.old n out.old result out.new }
{
    let mut done = [0u8; WIDTH];
    let mut wakes = [40u8; WIDTH];
    let mut low: usize = 0;
    for k in 0..n {
        let v = ready_vertex(deps, &done, &mut wakes, n, low);
        if v == n {
            return Some(k);
        }
        out[k] = v as u8;
        done[v] = 1;
        low = start_after(&wakes, v);
    }
    Some(n)
}

// The order of n vertices, written from the first byte of `out`; no later byte changes. Answers how many vertices the order has, fewer than n
// exactly where some vertex reaches itself; none where there are more than 40 vertices, a matrix of fewer than 40 rows, or memory for fewer
// vertices. The matrix is used up: what it holds afterwards is left open.
pub fn fill_order(deps: &mut [u8], n: usize, out: &mut [u8]) -> Option<usize>
    ensures { Filled deps.old n out.old result out.new }
{
    if WIDTH < n {
        return None;
    }
    if deps.len() < STARTS + WIDTH {
        return None;
    }
    if out.len() < n {
        return None;
    }
    write_order(deps, n, out)
}
