//! What the items of a `display` or an `abort` show.
ghost use Rattle.std.specs.Prelude.{◌≡◌, ◌≤◌, ◌++◌, ◌==◌, All, length, map, flat_map, codes, decimal, if◌then◌else◌, IfOk};
ghost use Rattle.gq_extended.specs.Meaning.{extended};
ghost use Rattle.gms_fmt.specs.Columns.{Appends};
ghost use Rattle.gms_fmt.specs.ElementTexts.{dotted_text};
ghost use Rattle.gms_event.specs.EventView.{shown_in};
ghost use Rattle.gms_list.specs.Amounts.{line_of};
ghost use Rattle.gms_list.specs.ListingText.{items_text, item_text, symbol_text, tuple_width, values_text, number_text, member_text, entry_text, entries_text, nothing_text, single_text};

use crate::listing::Listing;
use crate::values::value_text;
use crate::words::{kind_text, suffix_text};
use gms_ast::Program;
use gms_event::Shown;
use gms_fmt::{dotted, text_of};
use gms_labels::Labels;
use gms_store::SymbolKind;
use gms_tuple::Tuple;
use gq_extended::Ext;
use gq_field::ExactField;
use gq_text::Digits;
use std::alloc::{AllocError, Global};

/// The width of the column of the values.
const VALUE_WIDTH: usize = 14;

/// The length of the longest text among those of the tuples of some entries.
fn width<F: ExactField>(
    alloc: Global,
    labels: &Labels,
    entries: &[(Tuple, Ext<F>)],
) -> Result<usize, AllocError>
    ensures { IfOk result (λ width. width ≡ tuple_width labels.now (map (λ entry. (entry.0, extended F.value entry.1)) entries.now)) }
{
    let mut width = 0;
    for (t, _) in entries {
        width = dotted(alloc, labels, t)?.as_str().len().max(width);
    }
    Ok(width)
}

/// The line of a symbol with indices that has no entry.
fn nothing_text(kind: SymbolKind) -> &'static str
    ensures { result.now ≡ nothing_text kind }
{
    match kind {
        SymbolKind::Set => "  (empty)\n",
        _ => "  (all zero)\n",
    }
}

impl Listing {
    /// Appends the text of the items of a `display` or an `abort` at this line, in order.
    pub(crate) fn push_items<F: ExactField>(
        &mut self,
        alloc: Global,
        p: &Program<F>,
        line: u32,
        items: &[Shown<F>],
    ) -> Result<(), AllocError>
        requires { All (λ item. item.decimals ≤ 8) items.now }
        ensures { Appends result self.old self.new (items_text p.now.names p.now.labels line (map (shown_in F.value) items.now)) }
    {
        for item in items {
            self.push_item(alloc, p, line, item)?;
        }
        Ok(())
    }

    /// Appends what an item shows.
    fn push_item<F: ExactField>(
        &mut self,
        alloc: Global,
        p: &Program<F>,
        line: u32,
        item: &Shown<F>,
    ) -> Result<(), AllocError>
        requires { item.now.decimals ≤ 8 }
        ensures { Appends result self.old self.new (item_text p.now.names p.now.labels line (shown_in F.value item.now)) }
    {
        match item.name {
            None => self.push_text(alloc, line, item.text.as_slice()),
            Some(name) => self.push_symbol(alloc, p, line, name, item),
        }
    }

    /// Appends a text after the line of its statement.
    fn push_text(&mut self, alloc: Global, line: u32, text: &[u8]) -> Result<(), AllocError>
        ensures { Appends result self.old self.new (codes "---- " ++ decimal line ++ codes " " ++ line_of text.now) }
    {
        let head = format!(in alloc; "---- {line} ")?;
        self.push(head.as_str())?;
        self.push_bytes(text)?;
        self.push("\n")
    }

    /// Appends a symbol and its values after the line of the statement.
    fn push_symbol<F: ExactField>(
        &mut self,
        alloc: Global,
        p: &Program<F>,
        line: u32,
        name: u32,
        item: &Shown<F>,
    ) -> Result<(), AllocError>
        requires { item.now.decimals ≤ 8 }
        ensures { Appends result self.old self.new
            (codes "---- " ++ decimal line ++ codes " " ++
            symbol_text p.now.names p.now.labels name (shown_in F.value item.now)) }
    {
        let kind = kind_text(item.kind, item.indexed);
        let word = text_of(&p.names, name);
        let suffix = suffix_text(item.suffix);
        let head = format!(in alloc; "---- {line} {kind} {word}{suffix}")?;
        self.push(head.as_str())?;
        self.push_values(alloc, &p.labels, item)
    }

    /// Appends the values of a symbol, after the name: in the same line, or in separate lines.
    fn push_values<F: ExactField>(
        &mut self,
        alloc: Global,
        labels: &Labels,
        item: &Shown<F>,
    ) -> Result<(), AllocError>
        requires { item.now.decimals ≤ 8 }
        ensures { Appends result self.old self.new (values_text labels.now (shown_in F.value item.now)) }
    {
        if item.indexed {
            self.push("\n")?;
            self.push_lines(alloc, labels, item)
        } else {
            self.push_single(item)
        }
    }

    /// Appends the lines of a symbol with indices: one for each entry, or one that says that there
    /// is none.
    fn push_lines<F: ExactField>(
        &mut self,
        alloc: Global,
        labels: &Labels,
        item: &Shown<F>,
    ) -> Result<(), AllocError>
        requires { item.now.decimals ≤ 8 }
        ensures { Appends result self.old self.new
            (if length (shown_in F.value item.now).entries == 0 then nothing_text item.now.kind else entries_text labels.now item.now.kind item.now.decimals (shown_in F.value item.now).entries) }
    {
        if item.entries.is_empty() {
            return self.push(nothing_text(item.kind));
        }
        match item.kind {
            SymbolKind::Set => self.push_members(alloc, labels, item.entries.as_slice()),
            _ => self.push_entries(alloc, labels, item),
        }
    }

    /// Appends the value of a symbol without indices.
    fn push_single<F: ExactField>(&mut self, item: &Shown<F>) -> Result<(), AllocError>
        requires { item.now.decimals ≤ 8 }
        ensures { Appends result self.old self.new (single_text (shown_in F.value item.now)) }
    {
        self.push(" = ")?;
        self.push_numbers(item.entries.as_slice(), item.decimals)?;
        self.push("\n")
    }

    /// Appends the values of entries.
    fn push_numbers<F: ExactField>(
        &mut self,
        entries: &[(Tuple, Ext<F>)],
        decimals: u8,
    ) -> Result<(), AllocError>
        requires { decimals ≤ 8 }
        ensures { Appends result self.old self.new
            (flat_map (number_text decimals) (map (λ entry. (entry.0, extended F.value entry.1)) entries.now)) }
    {
        let mut digits = Digits::new();
        for (_, value) in entries {
            self.push(value_text(*value, decimals, &mut digits))?;
        }
        Ok(())
    }

    /// Appends the members of a set, a line each.
    fn push_members<F: ExactField>(
        &mut self,
        alloc: Global,
        labels: &Labels,
        entries: &[(Tuple, Ext<F>)],
    ) -> Result<(), AllocError>
        ensures { Appends result self.old self.new (flat_map (member_text labels.now) (map (λ entry. (entry.0, extended F.value entry.1)) entries.now)) }
    {
        for (t, _) in entries {
            self.push_member(alloc, labels, t)?;
        }
        Ok(())
    }

    /// Appends a member of a set as a line.
    fn push_member(&mut self, alloc: Global, labels: &Labels, t: &Tuple) -> Result<(), AllocError>
        ensures { Appends result self.old self.new (line_of (codes "  " ++ dotted_text labels.now t.now)) }
    {
        let tuple = dotted(alloc, labels, t)?;
        let line = format!(in alloc; "  {tuple}\n")?;
        self.push(line.as_str())
    }

    /// Appends entries, a line each: the tuple in the width of the longest, and the value right in
    /// its column.
    fn push_entries<F: ExactField>(
        &mut self,
        alloc: Global,
        labels: &Labels,
        item: &Shown<F>,
    ) -> Result<(), AllocError>
        requires { item.now.decimals ≤ 8 }
        ensures { Appends result self.old self.new
            (flat_map (entry_text labels.now (tuple_width labels.now (shown_in F.value item.now).entries) item.now.decimals) (shown_in F.value item.now).entries) }
    {
        let entries = item.entries.as_slice();
        let width = width(alloc, labels, entries)?;
        self.push_entry_lines(alloc, labels, width, item.decimals, entries)
    }

    /// Appends entries, a line each: the tuple left in a width, and the value right in its column.
    fn push_entry_lines<F: ExactField>(
        &mut self,
        alloc: Global,
        labels: &Labels,
        width: usize,
        decimals: u8,
        entries: &[(Tuple, Ext<F>)],
    ) -> Result<(), AllocError>
        requires { decimals ≤ 8 }
        ensures { Appends result self.old self.new
            (flat_map (entry_text labels.now width decimals) (map (λ entry. (entry.0, extended F.value entry.1)) entries.now)) }
    {
        for (t, value) in entries {
            self.push_entry(alloc, labels, width, decimals, t, *value)?;
        }
        Ok(())
    }

    /// Appends an entry as a line: the tuple left in a width, and the value right in its column.
    fn push_entry<F: ExactField>(
        &mut self,
        alloc: Global,
        labels: &Labels,
        width: usize,
        decimals: u8,
        t: &Tuple,
        value: Ext<F>,
    ) -> Result<(), AllocError>
        requires { decimals ≤ 8 }
        ensures { Appends result self.old self.new (entry_text labels.now width decimals (t.now, extended F.value value)) }
    {
        let tuple = dotted(alloc, labels, t)?;
        let mut digits = Digits::new();
        let value = value_text(value, decimals, &mut digits);
        self.push_left(alloc, tuple.as_str(), width)?;
        self.push_right(alloc, value, VALUE_WIDTH)?;
        self.push("\n")
    }
}
