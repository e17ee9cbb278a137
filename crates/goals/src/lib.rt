//! Reading rule records and orders (01, "Rule records" and "Branches"): from bytes to heads as sets and branches as rows.
#![tactic(auto)]

ghost use Rattle.std.specs.Prelude.{◌≡◌, Some, [], ◌∷◌, ◌++◌, map, ℕ, ◌+◌, ◌*◌, ◌≤◌, ◌<◌, length, get_or, drop};
ghost use Rattle.logic.specs.Branches.{sums};
ghost use Rattle.goals.specs.Codes.{is_kind, code};
ghost use Rattle.goals.specs.Parsing.{parse_at};
ghost use Rattle.goals.specs.Readings.{padded, climbs, front, program};
ghost use Rattle.goals.specs.Sets.{one, set_of, opened_rule, opened_order};
ghost use Rattle.goals.specs.Answers.{rows_of, rule_of, order_of, told, told_of};
ghost use Rattle.goals.specs.declared.Op.TheVariants.{Together, Both};
ghost use Rattle.goals.specs.Views.{step_at, capped, view_of, view, list_of, joined, combined, head_of, opened_head, body_of, opened_body};

use tokens::{Set, sum_cut};

mod branches;

pub use branches::Branches;

// The two operators between goals: ⅋ ("together") and & ("both ways").
#[derive(Clone, Copy)]
enum Op {
    Together,
    Both,
}

// What a byte of a goal says.
#[derive(Clone, Copy)]
enum Code {
    Kind(usize),
    Done,
    Pair(Op),
}

// A place in a slice of codes.
#[derive(Clone, Copy)]
struct Cursor {
    at: usize,
}

// A goal that was read: the cursor past it, and its branches; no list where a part of it opens into more than 16.
#[derive(Clone, Copy)]
struct Opened {
    next: Cursor,
    list: Option<Branches>,
}

// What a rule record is refused for: 4, 5 and 6 of 01.
#[derive(Clone, Copy, Debug, PartialEq, Eq)]
pub enum RuleFault {
    Head,
    Body,
    Over,
}

// What an order is refused for: 10 and 6 of 01.
#[derive(Clone, Copy, Debug, PartialEq, Eq)]
pub enum OrderFault {
    Order,
    Over,
}

// A rule record, opened: its head as a set, and its body's branches.
#[derive(Clone, Copy)]
pub struct OpenedRule {
    pub head: Set,
    pub list: Branches,
}

// The first record of a rule set that is refused: what for, and its number.
#[derive(Clone, Copy, Debug, PartialEq, Eq)]
pub struct BadRecord {
    pub fault: RuleFault,
    pub record: usize,
}

impl Cursor {
    // The code at the cursor with the cursor moved past it; none where the byte there is no code, or past the end of s.
    #[tactic(auto, unfolding(crate::specs::Views::step_at, crate::specs::Codes::code_at))]
    fn next(self, s: &[u8], kinds: usize) -> Option<(Code, Cursor)>
        ensures { result ≡ step_at kinds s.now self.at }
    {
        let b = *s.get(self.at)?;
        let code = decode(b, kinds)?;
        Some((code, Cursor { at: self.at + 1 }))
    }

    // Whether 255 stands from the cursor to the end, as it must after a head and after a body.
    fn at_padding(self, s: &[u8]) -> bool
        ensures { result ≡ padded (drop self.at s.now) }
    {
        s.iter().skip(self.at).all(|b| *b == 255)
    }
}

// What a byte says, with so many kinds, if it is a code.
#[tactic(auto, unfolding(crate::specs::Codes::code, crate::specs::Codes::is_kind))]
fn decode(b: u8, kinds: usize) -> Option<Code>
    ensures { result ≡ code kinds b }
{
    match b {
        64 => Some(Code::Done),
        65 => Some(Code::Pair(Op::Together)),
        66 => Some(Code::Pair(Op::Both)),
        _ => is_kind(b, kinds).then_some(Code::Kind(usize::from(b))),
    }
}

// Whether a byte is a kind: 0 to 31, and below the number of kinds.
#[tactic(auto, unfolding(crate::specs::Codes::is_kind))]
fn is_kind(b: u8, kinds: usize) -> bool
    ensures { result ≡ is_kind kinds b }
{
    b < 32 && usize::from(b) < kinds
}

// How many kinds stand in front of s: the length of its head.
fn front(s: &[u8], kinds: usize) -> usize
    ensures count { result ≡ front kinds s.now }
    ensures inside { result ≤ length s.now }
{
    s.iter().take_while(|b| is_kind(**b, kinds)).count()
}

// Whether the bytes never descend.
fn climbs(s: &[u8]) -> bool
    ensures { result ≡ climbs s.now }
{
    s.is_sorted_by(|a, b| a <= b)
}

// One of kind k alone.
#[tactic(auto, unfolding(crate::specs::Sets::one, tokens::specs::Sets::empty))]
fn single(k: usize) -> Set
    requires { k < 32 }
    ensures { result ≡ one k }
{
    let mut set = [0; 32];
    set[k] = 1;
    set
}

// The left list and then the right, as & opens; none where they are more than 16.
fn both(left: Branches, right: &Branches) -> Option<Branches>
    ensures { list_of result ≡ joined Both (rows_of left) (rows_of right.now) }
{
    let fits = left.count + right.count <= 16;
    if !fits {
        return None;
    }
    let mut out = left;
    for branch in right.rows() {
        out.push(*branch);
    }
    Some(out)
}

// Adds the sum of a set with each of right's: one left branch's share of ⅋. Apart from `both`, since one function for the two would take
// the sum as a closure, and a contract over that closure is longer than either loop.
fn shifted(out: &mut Branches, set: Set, right: &Branches)
    requires { out.old.count + right.now.count ≤ 16 }
    ensures { rows_of out.new ≡ rows_of out.old ++ map (capped set) (rows_of right.now) }
{
    for branch in right.rows() {
        out.push(sum_cut(set, *branch));
    }
}

// The sum of each left with each right branch, left outermost, as ⅋ opens; none where they are more than 16.
#[tactic(auto, using(crate::proofs::ListLaws::room_for_sums, crate::proofs::ListLaws::sums_more), unfolding(logic::specs::Branches::sums))]
fn together(left: &Branches, right: &Branches) -> Option<Branches>
    ensures { list_of result ≡ joined Together (rows_of left.now) (rows_of right.now) }
{
    let fits = left.count * right.count <= 16;
    if !fits {
        return None;
    }
    let mut out = Branches::none();
    for branch in left.rows() {
        shifted(&mut out, *branch, right);
    }
    Some(out)
}

// Two lists joined by an operator; none where either is missing, or where more than 16 branches come of them. The lists stay where they are:
// one that is passed by value through an Option, or out of a closure, would be copied, all 512 bytes, at each step.
fn combine(op: Op, left: &Option<Branches>, right: &Option<Branches>) -> Option<Branches>
    ensures { list_of result ≡ combined op (list_of left.now) (list_of right.now) }
{
    let left = left.as_ref()?;
    let right = right.as_ref()?;
    match op {
        Op::Together => together(left, right),
        Op::Both => both(*left, right),
    }
}

// A kind opens into one branch that holds it once. Never inlined, as the next two are not: `goal` calls itself, and each of its frames would
// have room for their lists.
#[inline(never)]
fn kind_alone(k: usize, next: Cursor) -> Option<Opened>
    requires { k < 32 }
    ensures { view_of result ≡ Some (Some (one k ∷ []), next.at) }
{
    let list = Some(Branches::alone(single(k)));
    Some(Opened { next, list })
}

// ⊤ opens into no branches.
#[inline(never)]
fn done_alone(next: Cursor) -> Option<Opened>
    ensures { view_of result ≡ Some (Some [], next.at) }
{
    let list = Some(Branches::none());
    Some(Opened { next, list })
}

// An operator's goal opens into what comes of its left and its right goal's lists, and ends where the right one ends.
#[inline(never)]
fn pair(op: Op, left: &Opened, right: &Opened) -> Option<Opened>
    ensures { view_of result ≡ Some (combined op (list_of left.now.list) (list_of right.now.list), right.now.next.at) }
{
    let list = combine(op, &left.list, &right.list);
    Some(Opened {
        next: right.next,
        list,
    })
}

// The goal at a cursor, opened, if there is one: it calls itself on the left and on the right goal of an operator, with fewer bytes left.
#[tactic(auto, using(crate::proofs::ViewLaws::view_on))]
fn goal(s: &[u8], c: Cursor, kinds: usize) -> Option<Opened>
    ensures { view_of result ≡ view (parse_at kinds s.now c.at) }
{
    let (code, next) = c.next(s, kinds)?;
    match code {
        Code::Kind(k) => kind_alone(k, next),
        Code::Done => done_alone(next),
        Code::Pair(op) => {
            let left = goal(s, next, kinds);
            let left = left.as_ref()?;
            let right = goal(s, left.next, kinds);
            let right = right.as_ref()?;
            pair(op, left, right)
        }
    }
}

// A rule's body, opened: one goal, and then 255 to the end, which is looked at before anything is said of over 16.
#[tactic(auto, using(crate::proofs::RuleLaws::body_on, crate::proofs::ViewLaws::body_listed))]
fn open_body(body: &[u8], kinds: usize) -> Result<Branches, RuleFault>
    ensures { body_of result ≡ opened_body kinds body.now }
{
    let opened = goal(body, Cursor { at: 0 }, kinds).ok_or(RuleFault::Body)?;
    if !opened.next.at_padding(body) {
        return Err(RuleFault::Body);
    }
    opened.list.ok_or(RuleFault::Over)
}

// Kinds as a set: how often each of them stands there.
#[tactic(auto, using(crate::proofs::RowLaws::set_of_front_low, crate::proofs::RowLaws::set_of_more), unfolding(crate::specs::Sets::set_of, tokens::specs::Sets::empty))]
fn tally(head: &[u8]) -> Set
    requires few { length head.now ≤ 255 }
    requires low { (i : ℕ) → i < length head.now → get_or head.now i 0 < 32 }
    ensures { result ≡ set_of head.now }
{
    let mut set = [0; 32];
    for kind in head {
        set[usize::from(*kind)] += 1;
    }
    set
}

// A rule's head as a set: kinds that never descend, one at least, and then 255 to the end.
#[tactic(auto, using(crate::proofs::HeadLaws::head_on, crate::proofs::HeadLaws::front_below))]
fn read_head(head: &[u8], kinds: usize) -> Result<Set, RuleFault>
    requires { length head.now ≡ 16 }
    ensures { head_of result ≡ opened_head kinds head.now }
{
    let k = front(head, kinds);
    let rest = Cursor { at: k };
    if k == 0 || !climbs(&head[..k]) || !rest.at_padding(head) {
        return Err(RuleFault::Head);
    }
    Ok(tally(&head[..k]))
}

// A rule record of 64 bytes, opened: its head as a set and its body's branches, or refusal 4, 5 or 6, in this order.
#[tactic(auto, using(crate::proofs::RuleLaws::in_order))]
pub fn open_rule(rule: &[u8], kinds: usize) -> Result<OpenedRule, RuleFault>
    requires { length rule.now ≡ 64 }
    ensures { rule_of result ≡ opened_rule kinds rule.now }
{
    let head = read_head(&rule[..16], kinds)?;
    let list = open_body(&rule[16..], kinds)?;
    Ok(OpenedRule { head, list })
}

// A whole rule set, record by record: it passes, or the first refusal and its record's number.
#[tactic(auto, using(crate::proofs::RuleLaws::set_starts, crate::proofs::RuleLaws::set_stops, crate::proofs::RuleLaws::set_ends))]
pub fn check_rules(rules: &[u8], kinds: usize) -> Result<(), BadRecord>
    ensures { told_of result ≡ told (program kinds rules.now) }
{
    let (records, _) = rules.as_chunks::<64>();
    for (record, rule) in records.iter().enumerate() {
        open_rule(rule, kinds).map_err(|fault| BadRecord { fault, record })?;
    }
    Ok(())
}

// An order of any length, opened: its branches, or refusal 10, and only then 6. Its goals are joined as by ⅋, and each leading
// run is opened before the next goal is read.
#[tactic(auto, using(crate::proofs::OrderLaws::order_long, crate::proofs::OrderLaws::run_on))]
pub fn open_order(order: &[u8], kinds: usize) -> Result<Branches, OrderFault>
    ensures { order_of result ≡ opened_order kinds order.now }
{
    if order.len() > 64 {
        return Err(OrderFault::Order);
    }
    let mut run = Some(Branches::alone([0; 32]));
    let mut c = Cursor { at: 0 };
    // A goal's length is known only once it is read, so the loop goes from cursor to cursor.
    while c.at < order.len() {
        let opened = goal(order, c, kinds).ok_or(OrderFault::Order)?;
        run = combine(Op::Together, &run, &opened.list);
        c = opened.next;
    }
    run.ok_or(OrderFault::Over)
}
