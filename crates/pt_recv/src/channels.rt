ghost use Rattle.std.specs.Prelude.{◌≡◌, ◌+◌, ◌-◌, ◌^◌, ◌<◌, ◌≤◌, [], ◌++◌, IfOk, IfSome, OnOk, IsOk, is_ok, is_some, if◌then◌else◌, drop, length, map, max, replicate, slice_get, slice_set, take};
ghost use Rattle.pt_value.specs.declared.token.Token.TheVariants.{Int};
ghost use Rattle.pt_recv.specs.Lines.{list_at, spare_at, pushed, popped, moved, raised, lowered};

use crate::run::Run;
use pt_pool::Pool;
use pt_value::Token;
use std::alloc::{AllocError, Global};
use std::marker::Model;

/// The channels of a composite, by number. Each is a list of tokens with a spare: room for so many more.
#[derive(Drop)]
pub struct Channels {
    pool: Pool<Token>,
    // The integers in front of a channel's other tokens, which came while the channel had none in the region.
    runs: Vec<Run>,
    count: u32,
}

impl Model for Channels {
    ghost use Rattle.pt_value.specs.declared.token.Token.{Token};
    ghost use Rattle.pt_value.specs.Token.{coded_token};
    ghost use Rattle.pt_recv.specs.Lines.{Lines, lines_code};

    ghost Value = { Lines Token };

    ghost coded = { lines_code coded_token };

    ghost use Rattle.pt_value.specs.declared.token.Token.TheVariants.{Int};
    ghost use Rattle.pt_recv.specs.Fronts.{joined, lessened, AreCovered};

    ghost view = { λ c. record { lists = joined Int c.runs.items c.pool.lists; spares = lessened c.runs.items c.pool.spares } };

    ghost use Rattle.std.specs.Prelude.{◌≡◌, length};

    ghost invariant = { λ c. record { lists : length c.pool.lists ≡ c.count; spares : length c.pool.spares ≡ c.count; runs : length c.runs.items ≡ c.count; covered : AreCovered c.runs.items c.pool.lists c.pool.spares } };
}

impl Channels {
    /// So many channels, without tokens and spares.
    pub fn new(alloc: Global, n: u32) -> Result<Channels, AllocError>
        ensures lists { IfOk result (λ channels. channels.lists ≡ replicate n []) }
        ensures spares { IfOk result (λ channels. channels.spares ≡ replicate n 0) }
    {
        let runs = empty_runs(alloc, n)?;
        let pool = empty_queues(alloc, n)?;
        Ok(Channels {
            pool,
            runs,
            count: n,
        })
    }

    /// Makes the spare of channel `c` at least `n`.
    #[inline(always)]
    pub fn ready(&mut self, c: u32, n: usize) -> Result<(), AllocError>
        requires { c < length self.old.lists }
        ensures lists { self.new.lists ≡ self.old.lists }
        ensures spares { self.new.spares ≡ (if is_ok result then slice_set self.old.spares c (max n (spare_at self.old.spares c)) else self.old.spares) }
        ensures room { OnOk result (n ≤ spare_at self.new.spares c) }
        ensures succeeds { n ≤ spare_at self.old.spares c → IsOk result }
    {
        if n <= self.spare(c) {
            return Ok(());
        }
        self.reserve(c, n)
    }

    // The same where memory may be wanted.
    #[inline(never)]
    fn reserve(&mut self, c: u32, n: usize) -> Result<(), AllocError>
        requires { c < length self.old.lists }
        ensures lists { self.new.lists ≡ self.old.lists }
        ensures spares { self.new.spares ≡ (if is_ok result then slice_set self.old.spares c (max n (spare_at self.old.spares c)) else self.old.spares) }
        ensures room { OnOk result (n ≤ spare_at self.new.spares c) }
    {
        let waiting = self.pool.len(c);
        let Some(cells) = n.checked_add(self.runs[c as usize].len()) else {
            return Err(AllocError);
        };
        let Some(all) = waiting.checked_add(cells) else {
            return Err(AllocError);
        };
        reserve_run(&mut self.runs, c, all)?;
        self.pool.reserve(c, cells)
    }

    /// Puts a number at the back of channel `c`, where that is a matter of one store: the channel has a spare, and nothing needs to be moved. `false` says that nothing was done.
    #[inline(always)]
    pub fn push_number(&mut self, c: u32, n: i64) -> bool
        requires { c < length self.old.lists }
        ensures lists { self.new.lists ≡ (if result then pushed self.old.lists c (Int n) else self.old.lists) }
        ensures spares { self.new.spares ≡ (if result then lowered self.old.spares c else self.old.spares) }
    {
        if self.spare(c) == 0 {
            return false;
        }
        self.put_apart(c, n, false)
    }

    /// Puts integers at the back of channel `c`, where it has room for them and nothing needs to be moved. `false` says that nothing was done.
    #[inline(always)]
    pub fn push_numbers(&mut self, c: u32, numbers: &[i64]) -> bool
        requires { c < length self.old.lists }
        ensures lists { self.new.lists ≡ (if result then slice_set self.old.lists c (list_at self.old.lists c ++ map Int numbers.now) else self.old.lists) }
        ensures spares { self.new.spares ≡ (if result then slice_set self.old.spares c (spare_at self.old.spares c - length numbers.now) else self.old.spares) }
    {
        if numbers.len() > self.spare(c) {
            return false;
        }
        self.put_all_apart(c, numbers, false)
    }

    /// Puts a token at the back of channel `c`, which has a spare. It takes no memory.
    pub fn put(&mut self, c: u32, token: Token)
        requires given { c < length self.old.lists }
        requires spare { 0 < spare_at self.old.spares c }
        ensures lists { self.new.lists ≡ pushed self.old.lists c token }
        ensures spares { self.new.spares ≡ lowered self.old.spares c }
    {
        match token {
            Token::Int(n) => self.put_number(c, n),
            token => self.put_behind(c, token),
        }
    }

    /// Puts a number at the back of channel `c`, which has a spare. It takes no memory, and mostly moves no token.
    #[inline(always)]
    pub fn put_number(&mut self, c: u32, n: i64)
        requires given { c < length self.old.lists }
        requires spare { 0 < spare_at self.old.spares c }
        ensures lists { self.new.lists ≡ pushed self.old.lists c (Int n) }
        ensures spares { self.new.spares ≡ lowered self.old.spares c }
    {
        if !self.put_apart(c, n, true) {
            self.put_number_behind(c, n);
        }
    }

    // The same apart from the region, where the region has no token of the channel, and its run has room, behind what is there or once that is moved.
    #[inline(always)]
    fn put_apart(&mut self, c: u32, n: i64, may_move: bool) -> bool
        requires given { c < length self.old.lists }
        requires spare { 0 < spare_at self.old.spares c }
        ensures lists { self.new.lists ≡ (if result then pushed self.old.lists c (Int n) else self.old.lists) }
        ensures spares { self.new.spares ≡ (if result then lowered self.old.spares c else self.old.spares) }
    {
        if self.pool.len(c) > 0 {
            return false;
        }
        self.runs[c as usize].push(n, may_move)
    }

    // Puts a number into the region. The token is made here, so that the call above makes none where it isn't needed.
    #[inline(never)]
    fn put_number_behind(&mut self, c: u32, n: i64)
        requires given { c < length self.old.lists }
        requires spare { 0 < spare_at self.old.spares c }
        ensures lists { self.new.lists ≡ pushed self.old.lists c (Int n) }
        ensures spares { self.new.spares ≡ lowered self.old.spares c }
    {
        self.put_behind(c, Token::Int(n));
    }

    // Puts a token into the region.
    fn put_behind(&mut self, c: u32, token: Token)
        requires given { c < length self.old.lists }
        requires spare { 0 < spare_at self.old.spares c }
        ensures lists { self.new.lists ≡ pushed self.old.lists c token }
        ensures spares { self.new.spares ≡ lowered self.old.spares c }
    {
        self.pool.push(c, token);
    }

    /// Puts integers at the back of channel `c`, which has room for them. It takes no memory.
    #[inline(always)]
    pub fn put_numbers(&mut self, c: u32, numbers: &[i64])
        requires given { c < length self.old.lists }
        requires room { length numbers.now ≤ spare_at self.old.spares c }
        ensures lists { self.new.lists ≡ slice_set self.old.lists c (list_at self.old.lists c ++ map Int numbers.now) }
        ensures spares { self.new.spares ≡ slice_set self.old.spares c (spare_at self.old.spares c - length numbers.now) }
    {
        if !self.put_all_apart(c, numbers, true) {
            self.put_each(c, numbers);
        }
    }

    // The same apart from the region, where the region has no token of the channel, and its run has room for all, behind what is there or once that is moved.
    #[inline(always)]
    fn put_all_apart(&mut self, c: u32, numbers: &[i64], may_move: bool) -> bool
        requires given { c < length self.old.lists }
        requires room { length numbers.now ≤ spare_at self.old.spares c }
        ensures lists { self.new.lists ≡ (if result then slice_set self.old.lists c (list_at self.old.lists c ++ map Int numbers.now) else self.old.lists) }
        ensures spares { self.new.spares ≡ (if result then slice_set self.old.spares c (spare_at self.old.spares c - length numbers.now) else self.old.spares) }
    {
        if self.pool.len(c) > 0 {
            return false;
        }
        self.runs[c as usize].push_all(numbers, may_move)
    }

    // The same one by one.
    #[inline(never)]
    fn put_each(&mut self, c: u32, numbers: &[i64])
        requires given { c < length self.old.lists }
        requires room { length numbers.now ≤ spare_at self.old.spares c }
        ensures lists { self.new.lists ≡ slice_set self.old.lists c (list_at self.old.lists c ++ map Int numbers.now) }
        ensures spares { self.new.spares ≡ slice_set self.old.spares c (spare_at self.old.spares c - length numbers.now) }
    {
        for n in numbers {
            self.put_number(c, *n);
        }
    }

    /// Takes the front of channel `c`, whose spare rises, or `None` where it is empty.
    pub fn take(&mut self, c: u32) -> Option<Token>
        requires { c < length self.old.lists }
        ensures front { result ≡ slice_get (list_at self.old.lists c) 0 }
        ensures lists { self.new.lists ≡ popped self.old.lists c }
        ensures spares { self.new.spares ≡ (if is_some result then raised self.old.spares c else self.old.spares) }
    {
        match self.runs[c as usize].take() {
            Some(n) => Some(Token::Int(n)),
            None => self.pool.pop(c),
        }
    }

    /// Takes the front of channel `c` where it is a number. `None` says nothing of the channel.
    #[inline(always)]
    pub fn take_number(&mut self, c: u32) -> Option<i64>
        requires { c < length self.old.lists }
        ensures front { IfSome result (λ n. slice_get (list_at self.old.lists c) 0 ≡ Some (Int n)) }
        ensures lists { self.new.lists ≡ (if is_some result then popped self.old.lists c else self.old.lists) }
        ensures spares { self.new.spares ≡ (if is_some result then raised self.old.spares c else self.old.spares) }
    {
        match self.take_apart(c) {
            Some(n) => Some(n),
            None => self.take_behind(c),
        }
    }

    // The same of a number that waits apart from the region.
    #[inline(always)]
    fn take_apart(&mut self, c: u32) -> Option<i64>
        requires { c < length self.old.lists }
        ensures front { IfSome result (λ n. slice_get (list_at self.old.lists c) 0 ≡ Some (Int n)) }
        ensures lists { self.new.lists ≡ (if is_some result then popped self.old.lists c else self.old.lists) }
        ensures spares { self.new.spares ≡ (if is_some result then raised self.old.spares c else self.old.spares) }
    {
        self.runs[c as usize].take()
    }

    // The same of a number that waits in the region.
    #[inline(never)]
    fn take_behind(&mut self, c: u32) -> Option<i64>
        requires { c < length self.old.lists }
        ensures front { IfSome result (λ n. slice_get (list_at self.old.lists c) 0 ≡ Some (Int n)) }
        ensures lists { self.new.lists ≡ (if is_some result then popped self.old.lists c else self.old.lists) }
        ensures spares { self.new.spares ≡ (if is_some result then raised self.old.spares c else self.old.spares) }
    {
        let n = self.first_behind(c)?;
        self.take(c);
        Some(n)
    }

    // The front of channel `c`, where it is a number in the region.
    fn first_behind(&self, c: u32) -> Option<i64>
        requires { c < length self.now.lists }
        ensures { IfSome result (λ n. slice_get (list_at self.now.lists c) 0 ≡ Some (Int n)) }
    {
        if self.runs[c as usize].len() > 0 {
            return None;
        }
        match self.pool.items(c).next() {
            Some(Token::Int(n)) => Some(*n),
            _ => None,
        }
    }

    /// Lets go of the first `n` tokens of channel `c`, whose spare rises by as many.
    #[inline(always)]
    pub fn skip(&mut self, c: u32, n: usize)
        requires given { c < length self.old.lists }
        requires enough { n ≤ length (list_at self.old.lists c) }
        ensures lists { self.new.lists ≡ slice_set self.old.lists c (drop n (list_at self.old.lists c)) }
        ensures spares { self.new.spares ≡ slice_set self.old.spares c (spare_at self.old.spares c + n) }
    {
        if !self.skip_apart(c, n) {
            self.skip_each(c, n);
        }
    }

    // The same of numbers that wait apart from the region.
    #[inline(always)]
    fn skip_apart(&mut self, c: u32, n: usize) -> bool
        requires { c < length self.old.lists }
        ensures lists { self.new.lists ≡ (if result then slice_set self.old.lists c (drop n (list_at self.old.lists c)) else self.old.lists) }
        ensures spares { self.new.spares ≡ (if result then slice_set self.old.spares c (spare_at self.old.spares c + n) else self.old.spares) }
    {
        if n > self.runs[c as usize].len() {
            return false;
        }
        self.runs[c as usize].skip(n);
        true
    }

    // The same one by one.
    #[inline(never)]
    fn skip_each(&mut self, c: u32, n: usize)
        requires given { c < length self.old.lists }
        requires enough { n ≤ length (list_at self.old.lists c) }
        ensures lists { self.new.lists ≡ slice_set self.old.lists c (drop n (list_at self.old.lists c)) }
        ensures spares { self.new.spares ≡ slice_set self.old.spares c (spare_at self.old.spares c + n) }
    {
        for _ in 0..n {
            self.take(c);
        }
    }

    /// Moves the front of one channel to the back of another, or of the same one.
    pub fn move_front(&mut self, from: u32, to: u32)
        requires given_from { from < length self.old.lists }
        requires given_to { to < length self.old.lists }
        requires filled { 0 < length (list_at self.old.lists from) }
        requires spare { 0 < spare_at self.old.spares to }
        ensures lists { self.new.lists ≡ moved self.old.lists from to }
        ensures spares { self.new.spares ≡ lowered (raised self.old.spares from) to }
    {
        if let Some(token) = self.take(from) {
            self.put(to, token);
        }
    }

    /// How many tokens channel `c` has.
    #[inline(always)]
    pub fn len(&self, c: u32) -> usize
        requires { c < length self.now.lists }
        ensures { result ≡ length (list_at self.now.lists c) }
    {
        self.pool.len(c) + self.runs[c as usize].len()
    }

    /// How many more tokens channel `c` has room for.
    #[inline(always)]
    pub fn spare(&self, c: u32) -> usize
        requires { c < length self.now.lists }
        ensures { result ≡ spare_at self.now.spares c }
    {
        self.pool.spare(c) - self.runs[c as usize].len()
    }

    /// The integers that stand in front of channel `c`'s other tokens: those that are kept apart.
    #[inline(always)]
    pub fn numbers(&self, c: u32) -> &[i64]
        requires { c < length self.now.lists }
        ensures { map Int result.now ≡ take (length result.now) (list_at self.now.lists c) }
    {
        self.runs[c as usize].as_slice()
    }

    /// Other channels with the same tokens, and as much room.
    pub fn copy(&self, alloc: Global) -> Result<Channels, AllocError>
        ensures { IfOk result (λ channels. channels ≡ self.now) }
    {
        let mut copies = Channels::new(alloc, self.count)?;
        for c in 0..self.count {
            self.copy_line(alloc, c, &mut copies)?;
        }
        Ok(copies)
    }

    // Copies channel `c` into the like one of others, which is empty.
    fn copy_line(&self, alloc: Global, c: u32, copies: &mut Channels) -> Result<(), AllocError>
        requires given { c < length self.now.lists }
        requires there { c < length copies.old.lists }
        requires spares { c < length copies.old.spares }
        requires empty { list_at copies.old.lists c ≡ [] }
        requires none { spare_at copies.old.spares c ≡ 0 }
        ensures lists { IfOk result (λ _. copies.new.lists ≡ slice_set copies.old.lists c (list_at self.now.lists c)) }
        ensures spares { IfOk result (λ _. copies.new.spares ≡ slice_set copies.old.spares c (spare_at self.now.spares c)) }
    {
        let spare = self.spare(c);
        let Some(room) = self.len(c).checked_add(spare) else {
            return Err(AllocError);
        };
        copies.ready(c, room)?;
        copies.put_numbers(c, self.runs[c as usize].as_slice());
        for token in self.pool.items(c) {
            copies.put(c, token.copy(alloc)?);
        }
        Ok(())
    }
}

/// Makes room for `n` integers in the run of channel `c`.
fn reserve_run(runs: &mut Vec<Run>, c: u32, n: usize) -> Result<(), AllocError>
    requires { c < length runs.old.items }
    ensures { runs.new.items ≡ runs.old.items }
{
    runs[c as usize].reserve(n)
}

/// So many runs without integers.
fn empty_runs(alloc: Global, n: u32) -> Result<Vec<Run>, AllocError>
    ensures { IfOk result (λ runs. runs.items ≡ replicate n []) }
{
    let mut runs = Vec::with_capacity(alloc, n as usize)?;
    for _ in 0..n {
        runs.push_reserved(Run::new(alloc));
    }
    Ok(runs)
}

/// A region of so many empty queues, without cells.
fn empty_queues(alloc: Global, n: u32) -> Result<Pool<Token>, AllocError>
    ensures lists { IfOk result (λ pool. pool.lists ≡ replicate n []) }
    ensures spares { IfOk result (λ pool. pool.spares ≡ replicate n 0) }
{
    let mut pool = Pool::with_cells(alloc, 0)?;
    for _ in 0..n {
        pool.queue()?;
    }
    Ok(pool)
}
