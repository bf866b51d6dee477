//! Laws of list layouts. Each function stands for the law that its clause states.

ghost use Rattle.std.specs.Prelude.{◌≡◌, ◌↔◌, ◌<◌, ◌∷◌, [], ℕ, true, false, List, Option, None, length, map, sum, take, slice_index};
ghost use Rattle.std.specs.Prelude.{slice_index_or};
ghost use Rattle.std.specs.List.{flat_map};
ghost use Rattle.vx_base.specs.Rows.{Row, count_in};
ghost use Rattle.vx_lists.specs.declared.list_view.rebuild.ListViewRebuildMode.{ListViewRebuildMode};
ghost use Rattle.vx_tree.specs.Formed.{WellFormed};
ghost use Rattle.vx_tree.specs.Meaning.{tree_len, row_at, rows};
ghost use Rattle.vx_tree.specs.Tree.{Tree};
ghost use Rattle.vx_lists.specs.ListViews.Layout.{ListLayout, layout, rows_of, IsWellFormed, StandsFor, items_of, size_of, canonical, IsTidy};
ghost use Rattle.vx_lists.specs.ListViews.Layout.{valid_total, numbered, position_rows, map_layout};
ghost use Rattle.vx_lists.specs.ListViews.References.{IsTrimmedToBounds};
ghost use Rattle.vx_lists.specs.ListViews.Faults.{rebuild_fault};
ghost use Rattle.vx_lists.specs.ListViews.{offsets_of, sizes_of, flag_of, counts_in, list_layout_of, list_rows, is_list_view, AreAlike, IsRebuilt};
ghost use Rattle.vx_lists.specs.ListViews.Modes.{HasEmptyNulls, IsExact, IsRebuiltBy};

/// The canonical layout stands for its rows.
pub fn canonical_stands<T>()
    ensures { (rows : List (Option (List T))) → StandsFor (canonical rows) rows }
{}

/// Two canonical layouts are equal exactly where their rows are.
pub fn canonical_is_exact<T>()
    ensures { (rows others : List (Option (List T))) →
        (canonical rows ≡ canonical others) ↔ (rows ≡ others) }
{}

/// The canonical layout starts at 0, is consecutive, has size 0 at null rows and no element past
/// the last end.
pub fn canonical_is_tidy<T>()
    ensures { (rows : List (Option (List T))) → IsTidy (canonical rows) }
{}

/// No other layout that stands for the rows is tidy.
pub fn tidy_is_canonical<T>()
    ensures { (l : ListLayout T) (rows : List (Option (List T))) →
        StandsFor l rows → IsTidy l → l ≡ canonical rows }
{}

/// Each offset of the canonical layout is the sum of the sizes before it.
pub fn canonical_offset_is_sum<T>()
    ensures { (rows : List (Option (List T))) (i : ℕ) → i < length rows →
        slice_index (canonical rows).offsets i ≡ sum (take i (map size_of rows)) }
{}

/// The canonical layout has as many elements as the present rows have in all.
pub fn canonical_len_is_valid_total<T>()
    ensures { (l : ListLayout T) → IsWellFormed l →
        length (canonical (rows_of l)).elements ≡ valid_total l.sizes l.mask }
{}

/// One gather of the elements gives the canonical layout: it is enough to lay out positions.
pub fn gather_is_canonical<T>()
    ensures { (l : ListLayout T) (d : T) → canonical (rows_of l)
        ≡ map_layout (λ i. slice_index_or l.elements i d) (canonical (rows_of (numbered l))) }
{}

/// The positions to gather follow from the offsets, the sizes and the mask alone.
pub fn gather_by_positions<T>()
    ensures { (l : ListLayout T) (d : T) → IsWellFormed l → canonical (rows_of l)
        ≡ map_layout (λ i. slice_index_or l.elements i d)
        (canonical (position_rows l.offsets l.sizes l.mask)) }
{}

/// The canonical layout of lists of rows stands for them.
pub fn canonical_rows_stand()
    ensures { (rows : List (Option (List Row))) → StandsFor (canonical rows) rows }
{}

/// Two canonical layouts of lists of rows are equal exactly where the lists are.
pub fn canonical_rows_are_exact()
    ensures { (rows others : List (Option (List Row))) →
        (canonical rows ≡ canonical others) ↔ (rows ≡ others) }
{}

/// The canonical layout of lists of rows is tidy.
pub fn canonical_rows_are_tidy()
    ensures { (rows : List (Option (List Row))) → IsTidy (canonical rows) }
{}

/// No other layout that stands for lists of rows is tidy.
pub fn tidy_rows_are_canonical()
    ensures { (l : ListLayout Row) (rows : List (Option (List Row))) →
        StandsFor l rows → IsTidy l → l ≡ canonical rows }
{}

/// The offsets, sizes, mask and element rows of a well-formed list view stand for its lists: each
/// list lies within the elements, and is what its offset and size say.
pub fn list_views_stand_for_their_lists()
    ensures { (t : Tree) → WellFormed t → is_list_view t ≡ true →
        StandsFor (list_layout_of t) (list_rows t) }
{}

/// Lists have as many elements, joined, as they have in all.
pub fn joined_lists_have_all_elements<T>()
    ensures { (rows : List (Option (List T))) →
        length (flat_map items_of rows) ≡ sum (map size_of rows) }
{}

/// Lists of rows have as many elements, joined, as they have in all.
pub fn joined_rows_have_all_elements()
    ensures { (rows : List (Option (List Row))) →
        length (flat_map items_of rows) ≡ sum (map size_of rows) }
{}

/// The counts of an array are as many as its rows, and each stands at the place of its row.
pub fn counts_stand_at_their_places()
    ensures len { (t : Tree) → length (counts_in t) ≡ tree_len t }
    ensures each { (t : Tree) (i : ℕ) → i < tree_len t →
        slice_index (counts_in t) i ≡ count_in (row_at t i) }
{}

/// Two list views rebuild alike, in offsets and sizes as numbers, in masks and in element rows,
/// exactly where their rows are equal: as `rebuild_by_take` does, and `rebuild` where neither is
/// flagged and both have rows.
pub fn equal_rows_rebuild_alike()
    ensures { (t u r q : Tree) → IsRebuilt t r → IsRebuilt u q →
        AreAlike r q ↔ (rows t ≡ rows u) }
{}

/// A well-formed flagged list view whose null rows have size 0 is in the canonical layout of its
/// lists once it is trimmed to its bounds, as `MakeExact` does: offsets and sizes as numbers, mask
/// and element rows. Offsets and sizes keep their types.
pub fn trimmed_views_are_exact()
    ensures { (t r : Tree) → WellFormed t → flag_of t ≡ true → HasEmptyNulls t →
        IsTrimmedToBounds t r → IsExact t r }
{}

/// What a mode has rebuilt stays as it is when that mode rebuilds it again: offsets and sizes as
/// numbers, mask, element rows and flag.
pub fn rebuilt_twice_is_rebuilt_once()
    ensures alike { (mode : ListViewRebuildMode) (t r q : Tree) →
        IsRebuiltBy mode t r → IsRebuiltBy mode r q → AreAlike r q }
    ensures flag { (mode : ListViewRebuildMode) (t r q : Tree) →
        IsRebuiltBy mode t r → IsRebuiltBy mode r q → flag_of q ≡ flag_of r }
{}

/// What a mode has rebuilt is not refused when that mode rebuilds it again.
pub fn rebuilt_lists_are_not_refused()
    ensures { (mode : ListViewRebuildMode) (t r : Tree) →
        IsRebuiltBy mode t r → rebuild_fault mode r ≡ None }
{}

/// Each list of a list view starts where it does in one that is alike, and is as long where the
/// list view is well formed.
pub fn alike_views_have_equal_places()
    ensures offsets { (t u : Tree) (i : ℕ) → AreAlike t u → i < tree_len t →
        count_in (row_at (offsets_of t) i) ≡ count_in (row_at (offsets_of u) i) }
    ensures sizes { (t u : Tree) (i : ℕ) → WellFormed t → AreAlike t u → i < tree_len t →
        count_in (row_at (sizes_of t) i) ≡ count_in (row_at (sizes_of u) i) }
{}

/// Lists that overlap are laid out one after the other.
pub fn overlapping_lists_part()
    ensures { let overlapping : ListLayout ℕ = layout (0 ∷ 1 ∷ []) (3 ∷ 2 ∷ []) (true ∷ true ∷ []) (1 ∷ 2 ∷ 3 ∷ [])
        in canonical (rows_of overlapping)
        ≡ layout (0 ∷ 3 ∷ []) (3 ∷ 2 ∷ []) (true ∷ true ∷ []) (1 ∷ 2 ∷ 3 ∷ 2 ∷ 3 ∷ []) }
{}

/// A null row's elements are left out.
pub fn null_elements_go()
    ensures { let sparse : ListLayout ℕ = layout (0 ∷ 1 ∷ 2 ∷ []) (1 ∷ 2 ∷ 2 ∷ []) (true ∷ false ∷ true ∷ [])
        (1 ∷ 2 ∷ 3 ∷ 4 ∷ [])
        in canonical (rows_of sparse)
        ≡ layout (0 ∷ 1 ∷ 1 ∷ []) (1 ∷ 0 ∷ 2 ∷ []) (true ∷ false ∷ true ∷ []) (1 ∷ 3 ∷ 4 ∷ []) }
{}

/// Null rows at the end start where the last list ends.
pub fn last_nulls_start_at_the_end()
    ensures { let sparse : ListLayout ℕ = layout (0 ∷ 2 ∷ 0 ∷ 0 ∷ []) (2 ∷ 2 ∷ 0 ∷ 0 ∷ [])
        (true ∷ true ∷ false ∷ false ∷ []) (1 ∷ 2 ∷ 3 ∷ 4 ∷ [])
        in canonical (rows_of sparse)
        ≡ layout (0 ∷ 2 ∷ 4 ∷ 4 ∷ []) (2 ∷ 2 ∷ 0 ∷ 0 ∷ []) (true ∷ true ∷ false ∷ false ∷ [])
        (1 ∷ 2 ∷ 3 ∷ 4 ∷ []) }
{}
