//! The items of an array. Its copies share them in chunks.
ghost use Rattle.std.specs.Prelude.{◌≡◌, ◌++◌, ◌+◌, ◌-◌, ◌<◌, ◌≤◌, ◌↔◌, IsTrue, List, [], ◌∷◌, length, take, drop, replicate, slice_get, slice_set, IfOk, OnOk, OnErr, option_copied};
ghost use Rattle.std.specs.List.{AllByRecursion};
ghost use Rattle.std.specs.Arc.{arc_value};
ghost use Rattle.std.specs.Vec.{vec_len, vec_capacity};
ghost use Rattle.std.specs.VecDeque.{deque_len, deque_capacity};
ghost use Rattle.json.specs.Tree.{json_tokens};
ghost use Rattle.serde_json.specs.Data.{array};
ghost use Rattle.serde_json.specs.Written.{outline};
ghost use Rattle.values.specs.Values.{IsValue};
ghost use Rattle.values.specs.Bounds.{plain_value};
ghost use Rattle.values.specs.Items.{max_items, item_elements};
ghost use Rattle.values.specs.Chunks.{chunk_size, joined, chunked, AreFull, HasChunks, cut_items, items_stored, values_tokens};

use crate::value::{Kind, Value};
use crate::words::Text;
use json::Writer;
use std::alloc::{AllocError, Global};
use std::collections::VecDeque;
use std::marker::Model;
use std::mem;
use std::sync::Arc;

/// How many items a chunk has.
const CHUNK: usize = 256;

/// With so many items an end gives up a chunk.
const LONG: usize = 512;

/// Items that copies of an array share.
#[derive(Debug, Drop)]
struct Chunk {
    items: Arc<VecDeque<Value>>,
}

impl Model for Chunk {
    ghost use Rattle.std.specs.Arc.{arc_value};
    ghost use Rattle.values.specs.Chunks.{Values};

    ghost Value = { Values };

    ghost view = { λ c. (arc_value c.items).items };
}

impl Chunk {
    fn of(items: VecDeque<Value>) -> Result<Chunk, AllocError>
        ensures { IfOk result (λ c. c ≡ items.items) }
    {
        let alloc = *items.allocator();
        Ok(Chunk {
            items: Arc::new(alloc, items)?,
        })
    }

    fn of_copies(alloc: Global, items: &[Value]) -> Result<Chunk, AllocError>
        ensures same { IfOk result (λ c. c ≡ items.now) }
        ensures fit { OnOk result (AllByRecursion IsValue items.now) }
    {
        let mut copies = Vec::with_capacity(alloc, items.len())?;
        copy_behind(&mut copies, items)?;
        Chunk::of(VecDeque::from_vec(copies))
    }

    /// The same chunk again, which is shared.
    fn share(&self) -> Result<Chunk, AllocError>
        ensures { IfOk result (λ c. c ≡ self.now) }
    {
        Ok(Chunk {
            items: Arc::try_clone(&self.items)?,
        })
    }

    fn get(&self, place: usize) -> Option<&Value>
        ensures { option_copied result ≡ slice_get self.now place }
    {
        self.items.get(place)
    }

    fn write_items(&self, out: &mut Writer) -> Result<(), AllocError>
        ensures ok { OnOk result (out.new.tokens
            ≡ out.old.tokens ++ values_tokens self.now) }
        ensures before { out.new.before ≡ out.old.before }
    {
        write_items(&self.items, out)
    }

    /// Copies of its items.
    fn copied(&self) -> Result<VecDeque<Value>, AllocError>
        ensures same { IfOk result (λ items. items.items ≡ self.now) }
        ensures fit { OnOk result (AllByRecursion IsValue self.now) }
    {
        copied(&self.items)
    }

    /// Puts a copy of the value at this place, and hands out the item that stood there. A chunk that is shared becomes
    /// one of its own first. If memory runs out, it is as it was.
    fn store(&mut self, place: usize, value: &Value) -> Result<Option<Value>, AllocError>
        ensures changed { OnOk result (self.new ≡ slice_set self.old place value.now) }
        ensures before { IfOk result (λ before. before ≡ slice_get self.old place) }
        ensures fits { OnOk result (IsValue value.now) }
        ensures err { OnErr result (self.new ≡ self.old) }
    {
        let value = value.copy()?;
        if let Some(items) = Arc::get_mut(&mut self.items) {
            return Ok(put(items, place, value));
        }
        let mut items = copied(&self.items)?;
        let before = put(&mut items, place, value);
        *self = Chunk::of(items)?;
        Ok(before)
    }
}

/// The items at the low end, those in chunks, and those at the high end. Few items all stand at the high end.
#[derive(Debug, Drop)]
pub(crate) struct Chunks {
    front: VecDeque<Value>,
    middle: VecDeque<Chunk>,
    back: VecDeque<Value>,
}

impl Model for Chunks {
    ghost use Rattle.values.specs.Chunks.{Values, chunked, HasChunks};

    ghost Value = { Values };

    ghost view = { λ c. chunked c.front.items c.middle.items c.back.items };

    ghost invariant = { λ c. HasChunks c.front.items c.middle.items c.back.items };
}

/// How an array gets other bounds: how many items in front of those that are kept are dropped, how many are kept, and
/// how many plain ones come in front of them and behind.
#[derive(Clone, Copy, Debug)]
pub(crate) struct Cut {
    pub(crate) dropped: usize,
    pub(crate) kept: usize,
    pub(crate) below: usize,
    pub(crate) above: usize,
}

impl Chunks {
    /// These items. If memory runs out, they are dropped.
    pub(crate) fn from_vec(items: Vec<Value>) -> Result<Chunks, AllocError>
        requires { length items.items ≤ max_items }
        ensures { IfOk result (λ c. c ≡ items.items) }
    {
        let alloc = *items.allocator();
        if items.len() >= LONG {
            return Chunks::of_copies(alloc, items.as_slice());
        }
        Ok(Chunks::at_the_back(VecDeque::from_vec(items)))
    }

    // Few items, which all stand at the high end.
    fn at_the_back(items: VecDeque<Value>) -> Chunks
        requires { deque_len items ≤ max_items }
        ensures { result ≡ items.items }
    {
        let alloc = *items.allocator();
        Chunks {
            front: VecDeque::new(alloc),
            middle: VecDeque::new(alloc),
            back: items,
        }
    }

    // Copies of these items, in chunks as far as they fill them.
    fn of_copies(alloc: Global, items: &[Value]) -> Result<Chunks, AllocError>
        requires { length items.now ≤ max_items }
        ensures { IfOk result (λ c. c ≡ items.now) }
    {
        let mut middle = VecDeque::new(alloc);
        let mut left = items;
        while left.len() >= CHUNK {
            let (first, rest) = left.split_at(CHUNK);
            middle.push_back(Chunk::of_copies(alloc, first)?)?;
            left = rest;
        }
        let mut back = Vec::with_capacity(alloc, left.len())?;
        copy_behind(&mut back, left)?;
        Ok(Chunks {
            front: VecDeque::new(alloc),
            middle,
            back: VecDeque::from_vec(back),
        })
    }

    pub(crate) fn allocator(&self) -> Global {
        *self.back.allocator()
    }

    pub(crate) fn len(&self) -> usize
        ensures value { result ≡ length self.now }
        ensures limit { length self.now ≤ max_items }
    {
        self.front.len() + self.middle.len() * CHUNK + self.back.len()
    }

    pub(crate) fn get(&self, index: usize) -> Option<&Value>
        ensures { option_copied result ≡ slice_get self.now index }
    {
        let count = self.front.len();
        if index < count {
            return self.front.get(index);
        }
        let above = index - count;
        match self.middle.get(above / CHUNK) {
            Some(chunk) => chunk.get(above % CHUNK),
            None => self.back.get(above - self.middle.len() * CHUNK),
        }
    }

    /// Puts a copy of the value at this index, and hands out the item that stood there. If memory runs out, all are as
    /// they were.
    pub(crate) fn store(&mut self, index: usize, value: &Value) -> Result<Option<Value>, AllocError>
        ensures changed { OnOk result (self.new ≡ slice_set self.old index value.now) }
        ensures before { IfOk result (λ before. before ≡ slice_get self.old index) }
        ensures err { OnErr result (self.new ≡ self.old) }
    {
        let count = self.front.len();
        if index < count {
            return Ok(put(&mut self.front, index, value.copy()?));
        }
        store_behind(&mut self.middle, &mut self.back, index - count, value)
    }

    /// Adds an item behind the last. If memory runs out, all are as they were.
    pub(crate) fn push_back(&mut self, value: Value) -> Result<(), AllocError>
        requires { length self.old < max_items }
        ensures ok { OnOk result (self.new ≡ self.old ++ value ∷ []) }
        ensures err { OnErr result (self.new ≡ self.old) }
    {
        shorten_back(&mut self.middle, &mut self.back)?;
        self.back.push_back(value)?;
        Ok(())
    }

    /// Adds an item before the first. If memory runs out, all are as they were.
    pub(crate) fn push_front(&mut self, value: Value) -> Result<(), AllocError>
        requires { length self.old < max_items }
        ensures ok { OnOk result (self.new ≡ value ∷ self.old) }
        ensures err { OnErr result (self.new ≡ self.old) }
    {
        if are_empty(&self.front, &self.middle) {
            self.back.push_front(value)?;
            return Ok(());
        }
        shorten_front(&mut self.front, &mut self.middle)?;
        self.front.push_front(value)?;
        Ok(())
    }

    /// Takes the last item out. If memory runs out, all are as they were.
    pub(crate) fn pop_back(&mut self) -> Result<Option<Value>, AllocError>
        ensures changed { OnOk result (self.new ≡ take (length self.old - 1) self.old) }
        ensures item { IfOk result (λ item. item ≡ slice_get self.old (length self.old - 1)) }
        ensures err { OnErr result (self.new ≡ self.old) }
    {
        refill_back(&mut self.middle, &mut self.back)?;
        match self.back.pop_back() {
            Some(item) => Ok(Some(item)),
            None => Ok(self.front.pop_back()),
        }
    }

    /// Takes the first item out. If memory runs out, all are as they were.
    pub(crate) fn pop_front(&mut self) -> Result<Option<Value>, AllocError>
        ensures changed { OnOk result (self.new ≡ drop 1 self.old) }
        ensures item { IfOk result (λ item. item ≡ slice_get self.old 0) }
        ensures err { OnErr result (self.new ≡ self.old) }
    {
        refill_front(&mut self.front, &mut self.middle)?;
        match self.front.pop_front() {
            Some(item) => Ok(Some(item)),
            None => Ok(self.back.pop_front()),
        }
    }

    /// Drops, keeps and adds items, and then puts each of these at its index, where the first item has the low one.
    /// If memory runs out, all are as they were.
    pub(crate) fn change(
        &mut self,
        kind: Kind,
        cut: Cut,
        low: i64,
        puts: Vec<(i64, Value)>,
    ) -> Result<(), AllocError>
        requires kept { cut.dropped + cut.kept ≤ length self.old }
        requires room { cut.below + cut.kept + cut.above ≤ max_items }
        ensures ok { OnOk result (self.new ≡ items_stored low
            (cut_items cut.dropped cut.kept cut.below cut.above (plain_value kind) self.old)
            puts.items) }
        ensures err { OnErr result (self.new ≡ self.old) }
    {
        if are_empty(&self.front, &self.middle) && cut.below + cut.kept + cut.above < LONG {
            change_few(&mut self.back, kind, cut, low, puts)?;
            return Ok(());
        }
        let mut next = self.copy()?;
        next.cut(kind, cut)?;
        next.put_all(low, puts)?;
        *self = next;
        Ok(())
    }

    /// The same items again.
    pub(crate) fn copy(&self) -> Result<Chunks, AllocError>
        ensures same { IfOk result (λ c. c ≡ self.now) }
        ensures fits { OnOk result (AllByRecursion IsValue self.now) }
    {
        let back = copied(&self.back)?;
        if are_empty(&self.front, &self.middle) {
            return Ok(Chunks::at_the_back(back));
        }
        Ok(Chunks {
            front: copied(&self.front)?,
            middle: shared(&self.middle)?,
            back,
        })
    }

    pub(crate) fn write_tokens(&self, out: &mut Writer) -> Result<(), AllocError>
        ensures ok { OnOk result (out.new.tokens
            ≡ out.old.tokens ++ json_tokens (outline (array (item_elements self.now)))) }
        ensures before { out.new.before ≡ out.old.before }
        ensures fits { OnOk result (AllByRecursion IsValue self.now) }
    {
        out.begin_array()?;
        write_items(&self.front, out)?;
        for chunk in &self.middle {
            chunk.write_items(out)?;
        }
        write_items(&self.back, out)?;
        out.end_array()
    }

    // Drops, keeps and adds items. If memory runs out, some of it may be done.
    fn cut(&mut self, kind: Kind, cut: Cut) -> Result<(), AllocError>
        requires kept { cut.dropped + cut.kept ≤ length self.old }
        requires room { cut.below + cut.kept + cut.above ≤ max_items }
        ensures { OnOk result (self.new
            ≡ cut_items cut.dropped cut.kept cut.below cut.above
            (plain_value kind) self.old) }
    {
        for _ in 0..cut.dropped {
            self.pop_front()?;
        }
        while self.len() > cut.kept {
            self.pop_back()?;
        }
        self.add_plain(kind, cut.below, cut.above)
    }

    // Adds so many plain items in front, and so many behind. If memory runs out, some may be added.
    fn add_plain(&mut self, kind: Kind, below: usize, above: usize) -> Result<(), AllocError>
        requires { below + length self.old + above ≤ max_items }
        ensures { OnOk result (self.new ≡ replicate below (plain_value kind)
            ++ (self.old ++ replicate above (plain_value kind))) }
    {
        let alloc = *self.back.allocator();
        for _ in 0..above {
            self.push_back(plain_value(alloc, kind))?;
        }
        for _ in 0..below {
            self.push_front(plain_value(alloc, kind))?;
        }
        Ok(())
    }

    // Puts each of these at its index, the last first. If memory runs out, some may be put.
    fn put_all(&mut self, low: i64, mut puts: Vec<(i64, Value)>) -> Result<(), AllocError>
        ensures { OnOk result (self.new ≡ items_stored low self.old puts.items) }
    {
        while let Some((index, value)) = puts.pop() {
            if low <= index {
                self.store(index.abs_diff(low) as usize, &value)?;
            }
        }
        Ok(())
    }
}

// Whether all items stand at the high end.
fn are_empty(front: &VecDeque<Value>, middle: &VecDeque<Chunk>) -> bool
    ensures { IsTrue result ↔ ((front.now.items ≡ []) × (middle.now.items ≡ [])) }
{
    front.is_empty() && middle.is_empty()
}

// Puts another item at this index, and hands out the one that stood there.
fn put(items: &mut VecDeque<Value>, index: usize, value: Value) -> Option<Value>
    ensures changed { items.new.items ≡ slice_set items.old.items index value }
    ensures before { result ≡ slice_get items.old.items index }
{
    let item = items.get_mut(index)?;
    Some(mem::replace(item, value))
}

// The same chunks again, which are shared.
fn shared(chunks: &VecDeque<Chunk>) -> Result<VecDeque<Chunk>, AllocError>
    ensures { IfOk result (λ copies. copies.items ≡ chunks.now.items) }
{
    let mut copies = VecDeque::with_capacity(*chunks.allocator(), chunks.len())?;
    for chunk in chunks {
        copies.push_back_reserved(chunk.share()?);
    }
    Ok(copies)
}

// Copies of these items.
fn copied(items: &VecDeque<Value>) -> Result<VecDeque<Value>, AllocError>
    ensures same { IfOk result (λ copies. copies.items ≡ items.now.items) }
    ensures fit { OnOk result (AllByRecursion IsValue items.now.items) }
{
    let (front, back) = items.as_slices();
    let mut copies = Vec::with_capacity(*items.allocator(), items.len())?;
    copy_behind(&mut copies, front)?;
    copy_behind(&mut copies, back)?;
    Ok(VecDeque::from_vec(copies))
}

// Puts copies of these values behind the items, where there is room. If memory runs out, some may stand there.
fn copy_behind(items: &mut Vec<Value>, values: &[Value]) -> Result<(), AllocError>
    requires { vec_len items.old + length values.now ≤ vec_capacity items.old }
    ensures ok { OnOk result (items.new.items ≡ items.old.items ++ values.now) }
    ensures fit { OnOk result (AllByRecursion IsValue values.now) }
    ensures capacity { vec_capacity items.new ≡ vec_capacity items.old }
    ensures len { OnOk result (vec_len items.new ≡ vec_len items.old + length values.now) }
{
    for value in values {
        items.push_reserved(value.copy()?);
    }
    Ok(())
}

// A chunk of copies of the items from this place on.
fn chunk_from(items: &VecDeque<Value>, place: usize) -> Result<Chunk, AllocError>
    requires { place + chunk_size ≤ deque_len items.now }
    ensures same { IfOk result (λ c. c ≡ take chunk_size (drop place items.now.items)) }
    ensures fit { OnOk result
        (AllByRecursion IsValue (take chunk_size (drop place items.now.items))) }
{
    let mut copies = VecDeque::with_capacity(*items.allocator(), CHUNK)?;
    for count in 0..CHUNK {
        copies.push_back_reserved(items[place + count].copy()?);
    }
    Chunk::of(copies)
}

// Makes a chunk of the first items at a long high end.
fn shorten_back(middle: &mut VecDeque<Chunk>, back: &mut VecDeque<Value>) -> Result<(), AllocError>
    ensures items { joined middle.new.items ++ back.new.items
        ≡ joined middle.old.items ++ back.old.items }
    ensures full { AreFull middle.old.items → AreFull middle.new.items }
{
    if back.len() < LONG {
        return Ok(());
    }
    middle.push_back(chunk_from(back, 0)?)?;
    keep_items(back, CHUNK, back.len() - CHUNK);
    Ok(())
}

// Makes a chunk of the last items at a long low end.
fn shorten_front(
    front: &mut VecDeque<Value>,
    middle: &mut VecDeque<Chunk>,
) -> Result<(), AllocError>
    ensures items { front.new.items ++ joined middle.new.items
        ≡ front.old.items ++ joined middle.old.items }
    ensures full { AreFull middle.old.items → AreFull middle.new.items }
{
    if front.len() < LONG {
        return Ok(());
    }
    let kept = front.len() - CHUNK;
    middle.push_front(chunk_from(front, kept)?)?;
    front.truncate(kept);
    Ok(())
}

// Takes the last chunk apart, if no item stands behind it.
fn refill_back(middle: &mut VecDeque<Chunk>, back: &mut VecDeque<Value>) -> Result<(), AllocError>
    requires { AreFull middle.old.items }
    ensures items { joined middle.new.items ++ back.new.items
        ≡ joined middle.old.items ++ back.old.items }
    ensures full { AreFull middle.new.items }
    ensures ends { OnOk result (back.new.items ≡ [] → middle.new.items ≡ []) }
{
    if !back.is_empty() {
        return Ok(());
    }
    if let Some(chunk) = middle.back() {
        *back = chunk.copied()?;
        middle.pop_back();
    }
    Ok(())
}

// Takes the first chunk apart, if no item stands before it.
fn refill_front(front: &mut VecDeque<Value>, middle: &mut VecDeque<Chunk>) -> Result<(), AllocError>
    requires { AreFull middle.old.items }
    ensures items { front.new.items ++ joined middle.new.items
        ≡ front.old.items ++ joined middle.old.items }
    ensures full { AreFull middle.new.items }
    ensures ends { OnOk result (front.new.items ≡ [] → middle.new.items ≡ []) }
{
    if !front.is_empty() {
        return Ok(());
    }
    if let Some(chunk) = middle.front() {
        *front = chunk.copied()?;
        middle.pop_front();
    }
    Ok(())
}

// Puts a copy of the value at this index of the items in chunks and behind them.
fn store_behind(
    middle: &mut VecDeque<Chunk>,
    back: &mut VecDeque<Value>,
    index: usize,
    value: &Value,
) -> Result<Option<Value>, AllocError>
    requires { AreFull middle.old.items }
    ensures changed { OnOk result (joined middle.new.items ++ back.new.items
        ≡ slice_set (joined middle.old.items ++ back.old.items) index value.now) }
    ensures before { IfOk result (λ before. before
        ≡ slice_get (joined middle.old.items ++ back.old.items) index) }
    ensures full { AreFull middle.new.items }
    ensures err { OnErr result (joined middle.new.items ++ back.new.items
        ≡ joined middle.old.items ++ back.old.items) }
{
    if let Some(chunk) = middle.get_mut(index / CHUNK) {
        return chunk.store(index % CHUNK, value);
    }
    Ok(put(back, index - middle.len() * CHUNK, value.copy()?))
}

// Does in its place what `change` does, where few items all stand at the high end.
fn change_few(
    items: &mut VecDeque<Value>,
    kind: Kind,
    cut: Cut,
    low: i64,
    puts: Vec<(i64, Value)>,
) -> Result<(), AllocError>
    requires kept { cut.dropped + cut.kept ≤ deque_len items.old }
    requires room { cut.below + cut.kept + cut.above ≤ max_items }
    ensures ok { OnOk result (items.new.items ≡ items_stored low
        (cut_items cut.dropped cut.kept cut.below cut.above (plain_value kind)
        items.old.items)
        puts.items) }
    ensures err { OnErr result (items.new.items ≡ items.old.items) }
{
    let size = cut.below + cut.kept + cut.above;
    items.reserve(size.saturating_sub(items.len()))?;
    keep_items(items, cut.dropped, cut.kept);
    add_plain(items, kind, cut.below, cut.above);
    put_each(items, low, puts);
    Ok(())
}

// Puts each of these at its index, the last first.
fn put_each(items: &mut VecDeque<Value>, low: i64, mut puts: Vec<(i64, Value)>)
    ensures { items.new.items ≡ items_stored low items.old.items puts.items }
{
    while let Some((index, value)) = puts.pop() {
        if low <= index {
            put(items, index.abs_diff(low) as usize, value);
        }
    }
}

// Drops so many items in front, and those behind so many more.
fn keep_items(items: &mut VecDeque<Value>, dropped: usize, kept: usize)
    requires { dropped + kept ≤ deque_len items.old }
    ensures items { items.new.items ≡ take kept (drop dropped items.old.items) }
    ensures capacity { deque_capacity items.new ≡ deque_capacity items.old }
{
    for _ in 0..dropped {
        items.pop_front();
    }
    items.truncate(kept);
}

// Adds so many plain items in front, and so many behind, where there is room.
fn add_plain(items: &mut VecDeque<Value>, kind: Kind, below: usize, above: usize)
    requires { deque_len items.old + below + above ≤ deque_capacity items.old }
    ensures { items.new.items ≡ replicate below (plain_value kind)
        ++ (items.old.items ++ replicate above (plain_value kind)) }
{
    let alloc = *items.allocator();
    for _ in 0..above {
        items.push_back_reserved(plain_value(alloc, kind));
    }
    for _ in 0..below {
        items.push_front_reserved(plain_value(alloc, kind));
    }
}

// 0 or the empty text.
fn plain_value(alloc: Global, kind: Kind) -> Value
    ensures { result ≡ plain_value kind }
{
    match kind {
        Kind::Int => Value::Int(0),
        Kind::Text => Value::Text(Text::empty(alloc)),
    }
}

fn write_items(items: &VecDeque<Value>, out: &mut Writer) -> Result<(), AllocError>
    ensures ok { OnOk result (out.new.tokens
        ≡ out.old.tokens ++ values_tokens items.now.items) }
    ensures before { out.new.before ≡ out.old.before }
    ensures fits { OnOk result (AllByRecursion IsValue items.now.items) }
{
    for item in items {
        item.write_tokens(out)?;
    }
    Ok(())
}
