//! What the numbers of forms entail, as laws.

ghost use Rattle.std.specs.Prelude.{IsTrue, ℕ, ◌≤◌, ◌+◌, ◌*◌, List, [], ◌∷◌, Option, Some, None};
ghost use Rattle.ty_prog.specs.declared.catch.Catch.TheOpen.{Expr-F, Catch-F, Pattern-F, Case-F};
ghost use Rattle.ty_prog.specs.declared.prim_op.PrimOp.{PrimOp};
ghost use Rattle.ty_prog.specs.declared.ty.Ty.TheVariants as ty;
ghost use Rattle.ty_prog.specs.declared.expr.Expr.{Expr};
ghost use Rattle.ty_prog.specs.declared.case.Case.{Case};
ghost use Rattle.ty_prog.specs.declared.pattern.Pattern.{Pattern};
ghost use Rattle.ty_prog.specs.declared.catch.Catch.{Catch};
ghost use Rattle.ty_room.specs.declared.size.Size.{Size};
ghost use Rattle.ty_room.specs.Ahead.{ahead_of};
ghost use Rattle.ty_room.specs.Sizing.{nothing, beside, together, node_size, make_size, case_size, expr_step, handler_step, pattern_step, case_step, expr_size, case_sizes};
ghost use Rattle.ty_room.specs.Forms.{forms_fit, lowerings_fit, local, part, always, joined, bound, tree_at, tree, type_test, this, boxed, called, applied, joined_texts};
ghost use Rattle.ty_room.specs.Numbers.{form};
ghost use Rattle.ty_room.specs.Source.{all_nodes, ExprWorth, CaseWorth, PatternWorth, AllWorth, text_added};
ghost use Rattle.ty_room.specs.Replaced.{each, TakesNoMore, IsTest, Reads, Tests, ChainFits, kept_first, few_made, many_made, one_of, match_end, matching, catching, of_objects, of_traits, of_lazy_members, of_conversions, of_variables, int_bound, of_patterns, cast_part};
ghost use Rattle.ty_room.specs.NoMore.{NoMore, MakesNoMore, Part, low_expr, high_expr, low_handler, high_handler, low_pattern, high_pattern, low_case, high_case};

/// Each form of source stands for a tree that takes at most 31 bytes and brings at most 5 entries for each of its nodes;
/// what a lowering puts in place of a form takes no more bytes and brings no more entries than the form.
pub fn forms()
    ensures few { IsTrue forms_fit }
    ensures no_more { IsTrue lowerings_fit }
{}

/// Where parts take no more than others, so does a node of the same form, as more lowerings are done: a node that a pass
/// copies takes no more than the one that it stands for.
pub fn copying()
    ensures exprs { (j k : ℕ) (level : Expr-F Part Part Part Part) → k ≤ j
        → NoMore (expr_step (ahead_of j) (low_expr level)) (expr_step (ahead_of k) (high_expr level)) }
    ensures handlers { (level : Catch-F Part Part Part Part)
        → NoMore (handler_step (low_handler level)) (handler_step (high_handler level)) }
    ensures patterns { (level : Pattern-F Part Part Part Part)
        → NoMore (pattern_step (low_pattern level)) (pattern_step (high_pattern level)) }
    ensures cases { (level : Case-F Part Part Part Part)
        → NoMore (case_step (low_case level)) (case_step (high_case level)) }
{}

/// Where a pass makes of each node a tree that takes no more than the node would over what its parts became, it makes of
/// each whole tree one that takes no more.
pub fn folding()
    ensures exprs { (k : ℕ) (handler : Catch → Size) (expr : Expr → Size) (pattern : Pattern → Size) (case : Case → Size)
        → MakesNoMore k handler expr pattern case → (e : Expr) → NoMore (expr e) (expr_size (ahead_of k) e) }
    ensures cases { (k : ℕ) (handler : Catch → Size) (expr : Expr → Size) (pattern : Pattern → Size) (case : Case → Size)
        → MakesNoMore k handler expr pattern case → (c : Case) → NoMore (case c) (case_sizes (ahead_of k) c) }
{}

/// What a lowering puts in place of a form, over parts of every size, takes no more than the form over the same parts.
pub fn replacing()
    ensures objects { each TakesNoMore of_objects }
    ensures traits { (number : ℕ) (of value : Size) (args : List Size) → each TakesNoMore (of_traits number of value args) }
    ensures lazy_members { (of : Size) → each TakesNoMore (of_lazy_members of) }
    ensures conversions { (k : ℕ) (e : Size) → each TakesNoMore (of_conversions k e) }
    ensures variables { (rest : Size) → each TakesNoMore (of_variables rest) }
{}

/// What the lowering of matching puts in place of a pattern without parts and in front of what follows, as a test of a
/// value in a local, of a part, and of a part that is read through a conversion.
pub fn testing()
    ensures of_local { (rest : Size) → each (IsTest 0 rest) (of_patterns local rest) }
    ensures of_part { (rest : Size) → each (IsTest 0 rest) (of_patterns part rest) }
    ensures of_cast_part { (rest : Size) → each (IsTest 3 rest) (of_patterns cast_part rest) }
    ensures int_variable { (rest : Size) → Tests 0 (type_test local (int_bound rest)) (pattern_step (Pattern-F.OfType ty.Int)) (bound local rest) }
{}

/// What the lowering of matching puts in place of a pattern with parts, of a case, of a match and of a handler with cases,
/// over what stands for their parts.
pub fn matching()
    ensures named { (read : ℕ) (value inner pattern rest : Size) → Reads read value → Tests 0 inner pattern (bound local rest)
        → Tests read (kept_first value inner) (pattern_step (Pattern-F.Bind 0 pattern)) rest }
    ensures no_parts { (rest : Size) → Tests 0 rest (together []) rest }
    ensures one_part_more { (a b : ℕ) (made inner rest pattern : Size) (patterns : List Size) → Tests a made pattern inner
        → Tests b inner (together patterns) rest → Tests (a + b) made (together (pattern ∷ patterns)) rest }
    ensures few_parts { (read more : ℕ) (value chain parts rest : Size) → Reads read value → Tests more chain parts rest
        → parts.value + more ≤ parts.test → more ≤ 14 → Tests read (few_made value chain) (make_size parts) rest }
    ensures many_parts { (read : ℕ) (value chain parts rest : Size) → Reads read value → Tests 0 chain parts rest
        → parts.value + 14 ≤ parts.test → Tests read (many_made value chain) (make_size parts) rest }
    ensures alternatives { (read : ℕ) (value tests rest : Size) (patterns : List Size) → Reads read value
        → Tests 0 tests (together patterns) nothing
        → Tests read (kept_first value (joined tests rest)) (pattern_step (Pattern-F.Either patterns)) rest }
    ensures one_pattern_more { (test others pattern : Size) (patterns : List Size) → Tests 0 test pattern nothing
        → test.test + 3 ≤ pattern.value → Tests 0 others (together patterns) nothing
        → Tests 0 (one_of test others) (together (pattern ∷ patterns)) nothing }
    ensures match_ends { ChainFits 19 3 match_end (together []) }
    ensures guarded_case { (end more : ℕ) (test pattern guard body next : Size) (cases : List Size) → Tests 0 test pattern guard
        → body.test ≤ body.value + 3 → ChainFits end more next (together cases)
        → ChainFits end more (tree_at 3 (Expr-F.If test body next)) (together (case_size pattern (Some guard) body ∷ cases)) }
    ensures plain_case { (end more : ℕ) (test pattern body next : Size) (cases : List Size) → Tests 0 test pattern always
        → body.test ≤ body.value + 3 → ChainFits end more next (together cases)
        → ChainFits end more (tree_at 3 (Expr-F.If test body next)) (together (case_size pattern None body ∷ cases)) }
    ensures matched { (value chain : Size) (cases : List Size) → ChainFits 19 3 chain (together cases)
        → NoMore (matching value chain) (tree_at 2 (Expr-F.Match value cases)) }
    ensures caught { (body chain cases : Size) (last : Option Size) → ChainFits 5 0 chain cases
        → NoMore (catching body chain last) (tree_at 2 (Expr-F.Try body (Some cases) last)) }
{}

/// A form of source over parts of every size, and lists of them of every length, takes at most 31 bytes and fewer than 5
/// entries for each of its nodes where its parts do.
pub fn sources()
    ensures more_nodes { (n m : ℕ) (size : Size) → n ≤ m → ExprWorth n size → ExprWorth m size }
    ensures call { (n : ℕ) (of : Size) (ns : List ℕ) (args : List Size) → ExprWorth n of → AllWorth ExprWorth ns args
        → ExprWorth (n + all_nodes ns + 1) (boxed (called of args)) }
    ensures own_call { (ns : List ℕ) (args : List Size) → AllWorth ExprWorth ns args
        → ExprWorth (all_nodes ns + 2) (boxed (called this args)) }
    ensures super_call { (ns : List ℕ) (args : List Size) → AllWorth ExprWorth ns args
        → ExprWorth (all_nodes ns + 2) (boxed (tree (Expr-F.SuperCall 0 [] args))) }
    ensures made { (ns : List ℕ) (args : List Size) → AllWorth ExprWorth ns args → ExprWorth (all_nodes ns + 1) (applied args) }
    ensures operation { (o : PrimOp) (ns : List ℕ) (args : List Size) → AllWorth ExprWorth ns args
        → ExprWorth (all_nodes ns + 1) (boxed (tree (Expr-F.Prim o args))) }
    ensures choice { (n m l : ℕ) (c a b : Size) → ExprWorth n c → ExprWorth m a → ExprWorth l b
        → ExprWorth (n + m + l + 1) (boxed (tree (Expr-F.If c a b))) }
    ensures equal { (n m : ℕ) (a b : Size) → ExprWorth n a → ExprWorth m b
        → ExprWorth (n + m + 1) (boxed (tree (Expr-F.Equal a b))) }
    ensures texts { (n m : ℕ) (a b : Size) → ExprWorth n a → ExprWorth m b → ExprWorth (n + m + 1) (joined_texts a b) }
    ensures text_added { (n : ℕ) (e : Size) → ExprWorth n e → ExprWorth (n + 2) (text_added e) }
    ensures with_one { (bytes own n : ℕ) (of : Size) → bytes + 4 ≤ 31 * own → 1 ≤ own → ExprWorth n of
        → ExprWorth (n + own) (boxed (node_size (form bytes 0) (beside nothing of))) }
    ensures block { (n : ℕ) (e : Size) (ns : List ℕ) (es : List Size) → ExprWorth n e → AllWorth ExprWorth ns es
        → ExprWorth (n + all_nodes ns + 1) (tree (Expr-F.Block (e ∷ es))) }
    ensures repeated { (n m : ℕ) (c b : Size) → ExprWorth n c → ExprWorth m b
        → ExprWorth (n + m + 1) (boxed (tree (Expr-F.While c b))) }
{}

/// The same of cases, patterns, matches and handlers.
pub fn branches()
    ensures guarded_case { (n m l : ℕ) (p g b : Size) → PatternWorth n p → ExprWorth m g → ExprWorth l b
        → CaseWorth (n + m + l + 1) (case_size p (Some g) b) }
    ensures plain_case { (n l : ℕ) (p b : Size) → PatternWorth n p → ExprWorth l b → CaseWorth (n + l + 1) (case_size p None b) }
    ensures named { (n : ℕ) (p : Size) → PatternWorth n p → PatternWorth (n + 1) (pattern_step (Pattern-F.Bind 0 p)) }
    ensures alternatives { (ns : List ℕ) (parts : List Size) → AllWorth PatternWorth ns parts
        → PatternWorth (all_nodes ns + 1) (pattern_step (Pattern-F.Either parts)) }
    ensures made { (ns : List ℕ) (parts : List Size) → AllWorth PatternWorth ns parts
        → PatternWorth (all_nodes ns + 1) (pattern_step (Pattern-F.Make 0 parts)) }
    ensures matched { (n : ℕ) (of : Size) (ns : List ℕ) (cases : List Size) → ExprWorth n of → AllWorth CaseWorth ns cases
        → ExprWorth (n + all_nodes ns + 1) (tree (Expr-F.Match of cases)) }
    ensures tried { (n : ℕ) (body : Size) → ExprWorth n body → ExprWorth (n + 1) (tree (Expr-F.Try body None None)) }
    ensures finished { (n m : ℕ) (body last : Size) → ExprWorth n body → ExprWorth m last
        → ExprWorth (n + m + 1) (tree (Expr-F.Try body None (Some last))) }
    ensures caught { (n : ℕ) (body : Size) (ns : List ℕ) (cases : List Size) → ExprWorth n body → AllWorth CaseWorth ns cases
        → ExprWorth (n + all_nodes ns + 1) (tree (Expr-F.Try body (Some (together cases)) None)) }
    ensures caught_and_finished { (n l m : ℕ) (body case last : Size) (ns : List ℕ) (cases : List Size) → ExprWorth n body
        → CaseWorth l case → AllWorth CaseWorth ns cases → ExprWorth m last
        → ExprWorth (n + (l + all_nodes ns) + m + 1) (tree (Expr-F.Try body (Some (together (case ∷ cases))) (Some last))) }
{}
