ghost use Rattle.std.specs.Prelude.{ℕ, ◌≡◌, ◌≢◌, ◌+◌, ◌<◌, ◌≤◌, ◌⊎◌, cond, true, ◌∷◌, [], ◌++◌, length, drop, vec_len, IfSome, IfOk, IfErr, OnErr, OnOk, MatchOption, MatchResult, slice_index};
ghost use Rattle.flow.specs.declared.misread.Reason.TheVariants.{NoComma, TooDeep, Trailing, Unfinished};
ghost use Rattle.flow.specs.Content.{closing_of, content_kind, content_number, is_map, node_of, opening_of};
ghost use Rattle.flow.specs.Flow.{is_blanks, Document, Item, Key, Value};
ghost use Rattle.flow.specs.Places.{NoRoom, Startless, Told};
ghost use Rattle.flow.specs.Reads.{Reads, ReadsGroup};
ghost use Rattle.flow.specs.Scalars.{Word, Wordless};
ghost use Rattle.flow.specs.Steps.{Behind, IsEnd, ending_here, past_blanks};
ghost use Rattle.flow.specs.Stops.{Lacks, StopsColon, StopsItem, StopsItems, StopsLeaf, StopsNext, StopsValue};

use crate::arrays::Arrays;
use crate::content::{Content, Group};
use crate::cursor::Cursor;
use crate::depth::Depth;
use crate::misread::{Misread, Reason};

/// The word at the front: what it is, and its width.
fn word(bytes: &[u8]) -> Option<(Content, usize)>
    ensures is { MatchOption result (Wordless bytes.now) (λ p. Word bytes.now (drop p.1 bytes.now) (content_kind p.0) (content_number p.0)) }
    ensures range { IfSome result (λ p. (0 < p.1) × (p.1 ≤ length bytes.now)) }
{
    if bytes.starts_with(b"true") {
        return Some((Content::Boolean(true), 4));
    }
    if bytes.starts_with(b"false") {
        return Some((Content::Boolean(false), 5));
    }
    if bytes.starts_with(b"null") {
        return Some((Content::Null, 4));
    }
    None
}

// That the input stays stands in each contract: no type can say that a call keeps one of its fields.
impl Cursor<'_> {
    /// Reads `true`, `false` or `null`.
    fn read_word(&mut self, arrays: &mut Arrays) -> Result<(), Misread>
        ensures input { self.new.input ≡ self.old.input }
        ensures inside { IfErr result (λ m. m.reason ≢ Trailing) }
        ensures place { IfErr result (λ m. m.place ≡ self.old.place) }
        ensures told { Startless (slice_index self.old.input.now self.old.place) → IfErr result (λ m. Told self.old.input.now m) }
        ensures stops { IfErr result (λ m. StopsLeaf self.old.input.now self.old.place m) }
        ensures reads { OnOk result (Reads Value self.old self.new arrays.old arrays.new) }
    {
        let (content, width) = word(self.rest()).ok_or(self.misread(Reason::NoValue))?;
        self.push(content, arrays)?;
        self.skip(width);
        Ok(())
    }

    /// Reads a string or an integer.
    fn read_scalar(&mut self, arrays: &mut Arrays) -> Result<(), Misread>
        ensures input { self.new.input ≡ self.old.input }
        ensures inside { IfErr result (λ m. m.reason ≢ Trailing) }
        ensures told { IfErr result (λ m. Told self.old.input.now m) }
        ensures stops { IfErr result (λ m. StopsLeaf self.old.input.now self.old.place m) }
        ensures reads { OnOk result (Reads Key self.old self.new arrays.old arrays.new) }
    {
        match self.rest() {
            [b'"', ..] => self.read_string(arrays),
            [b'-' | b'0'..=b'9', ..] => self.read_integer(arrays),
            _ => Err(self.misread(Reason::NoKey)),
        }
    }

    /// Reads the colon behind a key.
    fn read_colon(&mut self) -> Result<(), Misread>
        ensures input { self.new.input ≡ self.old.input }
        ensures inside { IfErr result (λ m. m.reason ≢ Trailing) }
        ensures told { IfErr result (λ m. Told self.old.input.now m) }
        ensures stops { IfErr result (λ m. StopsColon self.old.input.now self.old.place m) }
        ensures is { OnOk result (Behind 58 self.old.input.now self.old.place self.new.place) }
        ensures stands { OnErr result ((past_blanks self.old.input.now self.old.place ≡ length self.old.input.now) ⊎ (slice_index self.old.input.now (past_blanks self.old.input.now self.old.place) ≢ 58)) }
    {
        if self.next_token()? != b':' {
            return Err(self.misread(Reason::NoColon));
        }
        self.skip(1);
        Ok(())
    }

    /// Reads the end of an empty list or map, if it stands here; its node ends there.
    fn read_closing(
        &mut self,
        group: Group,
        node: usize,
        arrays: &mut Arrays,
    ) -> Result<bool, Misread>
        ensures input { self.new.input ≡ self.old.input }
        ensures text { arrays.new.text ≡ arrays.old.text }
        ensures nodes { MatchResult result (λ ended. arrays.new.nodes.items ≡ cond ended (ending_here node arrays.old.nodes.items) arrays.old.nodes.items) (λ _. arrays.new.nodes ≡ arrays.old.nodes) }
        ensures told { IfErr result (λ m. Told self.old.input.now m) }
        ensures stops { IfErr result (λ m. Lacks self.old.input.now self.old.place m) }
        ensures refused { IfErr result (λ m. (m.reason ≡ Unfinished) × (past_blanks self.old.input.now self.old.place ≡ length self.old.input.now)) }
        ensures is { IfOk result (λ ended. IsEnd ended (closing_of group) self.old.input.now self.old.place self.new.place) }
    {
        if self.next_token()? != group.closing() {
            return Ok(false);
        }
        self.skip(1);
        arrays.close(node);
        Ok(true)
    }

    /// Reads the comma behind an item, or the end of the list or map, whose node ends there; whether an item follows.
    fn read_next(&mut self, group: Group, node: usize, arrays: &mut Arrays) -> Result<bool, Misread>
        ensures input { self.new.input ≡ self.old.input }
        ensures text { arrays.new.text ≡ arrays.old.text }
        ensures nodes { MatchResult result (λ more. arrays.new.nodes.items ≡ cond more arrays.old.nodes.items (ending_here node arrays.old.nodes.items)) (λ _. arrays.new.nodes ≡ arrays.old.nodes) }
        ensures inside { IfErr result (λ m. m.reason ≢ Trailing) }
        ensures told { IfErr result (λ m. Told self.old.input.now m) }
        ensures stops { IfErr result (λ m. StopsNext (is_map group) self.old.input.now self.old.place m) }
        ensures is { IfOk result (λ more. Behind (cond more 44 (closing_of group)) self.old.input.now self.old.place self.new.place) }
        ensures refused { IfErr result (λ m. (m.reason ≡ Unfinished) ⊎ ((m.reason ≡ NoComma) × (slice_index self.old.input.now m.place ≢ closing_of group))) }
        ensures stands { OnErr result ((past_blanks self.old.input.now self.old.place ≡ length self.old.input.now) ⊎ ((slice_index self.old.input.now (past_blanks self.old.input.now self.old.place) ≢ 44) × (slice_index self.old.input.now (past_blanks self.old.input.now self.old.place) ≢ closing_of group))) }
    {
        let byte = self.next_token()?;
        if byte != b',' && byte != group.closing() {
            return Err(self.misread(Reason::NoComma));
        }
        self.skip(1);
        if byte == b',' {
            return Ok(true);
        }
        arrays.close(node);
        Ok(false)
    }

    /// Opens a list or map here, and gives how many more may open in it.
    fn open_group(&self, group: Group, depth: Depth, arrays: &mut Arrays) -> Result<Depth, Misread>
        ensures text { arrays.new.text ≡ arrays.old.text }
        ensures nodes { OnOk result (arrays.new.nodes.items ≡ arrays.old.nodes.items ++ node_of (Content.Group group) (length arrays.old.nodes.items + 1) ∷ []) }
        ensures place { IfErr result (λ m. m.place ≡ self.now.place) }
        ensures refused { MatchResult result (λ inside. depth.left ≡ inside.left + 1) (λ m. ((m.reason ≡ TooDeep) × (depth.left ≡ 0)) ⊎ NoRoom m.reason) }
    {
        let inside = depth.inside().ok_or(self.misread(Reason::TooDeep))?;
        self.push(Content::Group(group), arrays)?;
        Ok(inside)
    }

    /// Reads a value that holds no other.
    fn read_leaf(&mut self, arrays: &mut Arrays) -> Result<(), Misread>
        ensures input { self.new.input ≡ self.old.input }
        ensures inside { IfErr result (λ m. m.reason ≢ Trailing) }
        ensures told { (slice_index self.old.input.now self.old.place ≢ 91) × (slice_index self.old.input.now self.old.place ≢ 123) → IfErr result (λ m. Told self.old.input.now m) }
        ensures stops { IfErr result (λ m. StopsLeaf self.old.input.now self.old.place m) }
        ensures reads { OnOk result (Reads Value self.old self.new arrays.old arrays.new) }
    {
        match self.rest() {
            [b'"' | b'-' | b'0'..=b'9', ..] => self.read_scalar(arrays),
            _ => self.read_word(arrays),
        }
    }

    /// Reads a value, in which so many lists and maps may nest.
    #[cycle(value)]
    fn read_value(&mut self, depth: Depth, arrays: &mut Arrays) -> Result<(), Misread>
        ensures input { self.new.input ≡ self.old.input }
        ensures inside { IfErr result (λ m. m.reason ≢ Trailing) }
        ensures told { IfErr result (λ m. Told self.old.input.now m) }
        ensures stops { IfErr result (λ m. StopsValue self.old.input.now m depth.left self.old.place) }
        ensures reads { OnOk result (Reads Value self.old self.new arrays.old arrays.new) }
    {
        let byte = self.next_token()?;
        let Some(group) = Group::opened_by(byte) else {
            return self.read_leaf(arrays);
        };
        let node = arrays.nodes.len();
        let inside = self.open_group(group, depth, arrays)?;
        self.skip(1);
        self.read_items(group, node, inside, arrays)
    }

    /// Reads what a list or map holds, and its end; its node ends there.
    #[cycle(value)]
    fn read_items(
        &mut self,
        group: Group,
        node: usize,
        depth: Depth,
        arrays: &mut Arrays,
    ) -> Result<(), Misread>
        ensures input { self.new.input ≡ self.old.input }
        ensures inside { IfErr result (λ m. m.reason ≢ Trailing) }
        ensures told { IfErr result (λ m. Told self.old.input.now m) }
        ensures stops { IfErr result (λ m. StopsItems self.old.input.now m (is_map group) depth.left self.old.place) }
        ensures closes { (end : ℕ) → Behind (closing_of group) self.old.input.now self.old.place end → OnErr result ⊥ }
        ensures reads { OnOk result (ReadsGroup (is_map group) node self.old self.new arrays.old arrays.new) }
    {
        if self.read_closing(group, node, arrays)? {
            return Ok(());
        }
        self.read_item(group, depth, arrays)?;
        while self.read_next(group, node, arrays)? {
            self.read_item(group, depth, arrays)?;
        }
        Ok(())
    }

    /// Reads a value of a list, or an entry of a map.
    #[cycle(value)]
    fn read_item(&mut self, group: Group, depth: Depth, arrays: &mut Arrays) -> Result<(), Misread>
        ensures input { self.new.input ≡ self.old.input }
        ensures inside { IfErr result (λ m. m.reason ≢ Trailing) }
        ensures told { IfErr result (λ m. Told self.old.input.now m) }
        ensures stops { IfErr result (λ m. StopsItem self.old.input.now m (is_map group) depth.left self.old.place) }
        ensures reads { OnOk result (Reads (Item (is_map group)) self.old self.new arrays.old arrays.new) }
    {
        match group {
            Group::List => self.read_value(depth, arrays),
            Group::Map => self.read_entry(depth, arrays),
        }
    }

    /// Reads a key and its value.
    #[cycle(value)]
    fn read_entry(&mut self, depth: Depth, arrays: &mut Arrays) -> Result<(), Misread>
        ensures input { self.new.input ≡ self.old.input }
        ensures inside { IfErr result (λ m. m.reason ≢ Trailing) }
        ensures told { IfErr result (λ m. Told self.old.input.now m) }
        ensures stops { IfErr result (λ m. StopsItem self.old.input.now m true depth.left self.old.place) }
        ensures reads { OnOk result (Reads (Item true) self.old self.new arrays.old arrays.new) }
    {
        self.next_token()?;
        self.read_scalar(arrays)?;
        self.read_colon()?;
        self.read_value(depth, arrays)
    }

    /// Sees that nothing but blanks stands here.
    fn read_end(&mut self) -> Result<(), Misread>
        ensures told { IfErr result (λ m. Told self.old.input.now m) }
        ensures place { IfErr result (λ m. m.place ≡ past_blanks self.old.input.now self.old.place) }
        ensures is { OnOk result (is_blanks (drop self.old.place self.old.input.now) ≡ true) }
    {
        self.skip_blanks();
        if !self.rest().is_empty() {
            return Err(self.misread(Reason::Trailing));
        }
        Ok(())
    }
}

impl Arrays {
    /// Reads a document; what was read before is gone.
    pub fn read(&mut self, input: &[u8]) -> Result<(), Misread>
        ensures { MatchResult result (λ _. Document input.now self.new.nodes.items self.new.text.items) (λ m. Told input.now m) }
    {
        self.nodes.clear();
        self.text.clear();
        let mut cursor = Cursor::new(input);
        cursor.read_value(Depth::outermost(), self)?;
        cursor.read_end()
    }
}
