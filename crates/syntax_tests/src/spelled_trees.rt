//! Trees that are built by hand, with the symbols that the grammar gives them. Each type of tree,
//! and each form of each, stands in one of them.

use c_lexer::{Kind, SourceText, Token, lex};
use c_tree::*;
use joern_io::{Boxed, List};
use std::alloc::Global;
use std::process::Abort;

const AN_ARRAY: &str = "_Alignas(int)_Atomic(int)struct s{int x:n;}*const a[n]={[n]=n,.y=n,};";

const AN_ENUMERATION: &str = "static inline const T enum{E=n,}(f)(int[const*],...),g;";

const AN_ASSERTION: &str =
    "_Static_assert(x=a?b,c:-(int)(d)[i](e,f).m->n++*sizeof(int)+(int){1},\"s\" \"t\");";

const A_FUNCTION: &str = "int f(void){\
    if(a)b;else if(c);else{}\
    l:case a:default:do while(b)goto l;while(c);\
    for(int i;a;b)switch(c)break;\
    for(a;;)for(;;)continue;\
    return a;_Alignas(n)int k;}";

fn want_of(token: &Token) -> Option<Want> {
    match token.kind {
        Kind::Word => Some(Want::Word),
        Kind::Key(key) => Some(Want::Key(key)),
        Kind::Mark(mark) => Some(Want::Mark(mark)),
        Kind::Text => Some(Want::Text),
        _ => None,
    }
}

/// Makes trees, for which memory suffices.
#[derive(Drop)]
struct Trees<'r, R> {
    rt: &'r R,
    alloc: Global,
}

impl<R: Abort> Trees<'_, R> {
    /// The tree of a file of the one item spells the tokens of the source from the first on, each
    /// by its kind, or as one of those that may stand in the next of the slots.
    fn assert_spells(&self, item: Item, source: &str, slots: &[Slot]) {
        let text = SourceText::new(source.as_bytes()).expect(self.rt, "a short text");
        let tokens = lex(self.alloc, text).expect(self.rt, "tokens");
        let items = self.list([item]);
        let symbols = spell(self.alloc, &Unit { items }).expect(self.rt, "memory");
        assert_eq!(self.rt; symbols.len(), tokens.len(), "{source}");
        let mut slots = slots.iter();
        for (i, (symbol, token)) in symbols.iter().zip(&tokens).enumerate() {
            assert_eq!(self.rt; symbol.token as usize, i, "{source}");
            let want = match symbol.want {
                Want::Among(_) => slots.next().map(|slot| Want::Among(*slot)),
                _ => want_of(token),
            };
            assert_eq!(self.rt; Some(symbol.want), want, "at token {i} of {source}");
        }
        assert!(self.rt; slots.next().is_none(), "{source}");
    }

    fn list<T: Drop, const N: usize>(&self, items: [T; N]) -> List<T> {
        List::of(Vec::from_array(self.alloc, items).expect(self.rt, "memory"))
    }

    fn none<T: Drop>(&self) -> List<T> {
        List::new(self.alloc)
    }

    fn boxed<T: Drop>(&self, value: T) -> Boxed<T> {
        Boxed::new(self.alloc, value).expect(self.rt, "memory")
    }

    /// A value that is one operand.
    fn value(&self, form: BaseForm) -> Assign {
        Assign {
            targets: self.none(),
            value: Cond::unconditional(self.alloc, self.operand(form), self.none()),
        }
    }

    fn operand(&self, form: BaseForm) -> Prefixed {
        let suffixes = self.none();
        Prefixed {
            prefixes: self.none(),
            base: Base { form, suffixes },
        }
    }

    fn expr(&self, part: Assign) -> Expr {
        Expr {
            parts: self.list([part]),
            marks: self.none(),
        }
    }

    /// An expression that is a name.
    fn name(&self, token: u32) -> Expr {
        self.expr(self.value(BaseForm::Name(token)))
    }

    /// The type name `int`.
    fn of_int(&self, token: u32) -> Boxed<TypeName> {
        let type_name = TypeName {
            specs: self.specs([Spec::Basic(token)]),
            declarator: Declarator::empty(self.alloc),
        };
        self.boxed(type_name)
    }

    fn specs<const N: usize>(&self, words: [Spec; N]) -> Specs {
        Specs {
            words: self.list(words),
        }
    }

    /// A declarator without pointers and width.
    fn declarator(&self, core: Core, suffixes: List<Suffix>) -> Declarator {
        Declarator {
            pointers: self.none(),
            core,
            suffixes,
            width: None,
            marks: self.none(),
        }
    }

    fn uninitialised(&self, declarator: Declarator) -> InitDeclarator {
        InitDeclarator {
            declarator,
            init: None,
            marks: self.none(),
        }
    }

    /// A declaration of one name without an initialiser.
    fn declare(&self, specs: Specs, declarator: Declarator, semicolon: u32) -> Declaration {
        Declaration::Names {
            specs,
            list: self.list([self.uninitialised(declarator)]),
            marks: self.list([semicolon]),
        }
    }

    /// `struct s{int x:n;}`, from token 8 on.
    fn a_structure(&self) -> Spec {
        let mut member = self.declarator(Core::Name(12), self.none());
        member.width = Some(self.boxed(self.name(14)));
        member.marks = self.list([13]);
        let specs = self.specs([Spec::Basic(11)]);
        Spec::Record {
            key: 8,
            tag: Some(9),
            body: Some(self.list([self.declare(specs, member, 15)])),
            marks: self.list([10, 16]),
        }
    }

    /// An item of an initialiser that is a name after one designator.
    fn item_at(&self, designator: Designator, equal: u32, token: u32) -> InitItem {
        InitItem {
            designators: self.list([designator]),
            init: Init::Value(self.name(token)),
            marks: self.list([equal]),
        }
    }

    fn an_array(&self) -> Item {
        let words = [
            Spec::AlignType(self.of_int(2), self.list([0, 1, 3])),
            Spec::Atomic(self.of_int(6), self.list([4, 5, 7])),
            self.a_structure(),
        ];
        let size = Suffix::Array {
            words: self.none(),
            size: Some(self.name(21)),
            star: None,
            marks: self.list([20, 22]),
        };
        let mut declarator = self.declarator(Core::Name(19), self.list([size]));
        let qualifiers = self.list([18]);
        let star = 17;
        declarator.pointers = self.list([Pointer { star, qualifiers }]);
        let index = Designator::Index(self.name(26), self.list([25, 27]));
        let field = Designator::Field(32, self.list([31]));
        let items = self.list([self.item_at(index, 28, 29), self.item_at(field, 33, 34)]);
        let array = InitDeclarator {
            declarator,
            init: Some(Init::Items(items, self.list([24, 30, 35, 36]))),
            marks: self.list([23]),
        };
        Item::Declare(Declaration::Names {
            specs: self.specs(words),
            list: self.list([array]),
            marks: self.list([37]),
        })
    }

    fn an_enumeration(&self) -> Item {
        let enumerator = Enumerator {
            name: 6,
            value: Some(self.name(8)),
            marks: self.list([7]),
        };
        let enumeration = Spec::Enumeration {
            key: 4,
            tag: None,
            body: Some(self.list([enumerator])),
            marks: self.list([5, 9, 10]),
        };
        let words = [
            Spec::Storage(0),
            Spec::Function(1),
            Spec::Qualifier(2),
            Spec::Named(3),
            enumeration,
        ];
        let inner = self.boxed(self.declarator(Core::Name(12), self.none()));
        let core = Core::Group(inner, self.list([11, 13]));
        let function = self.declarator(core, self.list([self.the_parameters()]));
        let other = self.declarator(Core::Name(24), self.none());
        Item::Declare(Declaration::Names {
            specs: self.specs(words),
            list: self.list([self.uninitialised(function), self.uninitialised(other)]),
            marks: self.list([23, 25]),
        })
    }

    /// `(int[const*],...)`, from token 14 on.
    fn the_parameters(&self) -> Suffix {
        let array = Suffix::Array {
            words: self.list([17]),
            size: None,
            star: Some(18),
            marks: self.list([16, 19]),
        };
        let unnamed = Param {
            specs: self.specs([Spec::Basic(15)]),
            declarator: self.declarator(Core::Empty, self.list([array])),
        };
        Suffix::Params {
            list: self.list([unnamed]),
            dots: Some(21),
            marks: self.list([14, 20, 22]),
        }
    }

    fn an_assertion(&self) -> Item {
        let size = BaseForm::SizeType(31, self.of_int(33), self.list([32, 34]));
        let literal = InitItem {
            designators: self.none(),
            init: Init::Value(self.expr(self.value(BaseForm::Literal(self.list([40]))))),
            marks: self.none(),
        };
        let compound = BaseForm::Compound(
            self.of_int(37),
            self.list([literal]),
            self.list([36, 38, 39, 41]),
        );
        let sum = Binary {
            first: self.a_member(),
            rest: self.list([(30, self.operand(size)), (35, self.operand(compound))]),
        };
        let choice = Cond {
            arms: self.list([self.an_arm()]),
            last: sum,
        };
        let assign = Assign {
            targets: self.list([(self.operand(BaseForm::Name(2)), 3)]),
            value: choice,
        };
        Item::Declare(Declaration::Assert {
            cond: self.expr(assign),
            text: self.list([43, 44]),
            marks: self.list([0, 1, 42, 45, 46]),
        })
    }

    /// `a?b,c:`, from token 4 on.
    fn an_arm(&self) -> Arm {
        let parts = [self.value(BaseForm::Name(6)), self.value(BaseForm::Name(8))];
        Arm {
            test: Binary {
                first: self.operand(BaseForm::Name(4)),
                rest: self.none(),
            },
            then: Expr {
                parts: self.list(parts),
                marks: self.list([7]),
            },
            marks: self.list([5, 9]),
        }
    }

    /// `-(int)(d)[i](e,f).m->n++`, from token 10 on.
    fn a_member(&self) -> Prefixed {
        let arguments = [
            self.value(BaseForm::Name(21)),
            self.value(BaseForm::Name(23)),
        ];
        let suffixes = [
            Post::Index(self.name(18), self.list([17, 19])),
            Post::Call(self.list(arguments), self.list([20, 22, 24])),
            Post::Dot(26, self.list([25])),
            Post::Arrow(28, self.list([27])),
            Post::Step(29),
        ];
        let cast = Prefix::Cast(self.of_int(12), self.list([11, 13]));
        Prefixed {
            prefixes: self.list([Prefix::Op(10), cast]),
            base: Base {
                form: BaseForm::Group(self.boxed(self.name(15)), self.list([14, 16])),
                suffixes: self.list(suffixes),
            },
        }
    }

    fn unlabelled(&self, kind: StmtKind) -> Stmt {
        let labels = self.none();
        Stmt { labels, kind }
    }

    fn inner(&self, kind: StmtKind) -> Boxed<Stmt> {
        self.boxed(self.unlabelled(kind))
    }

    fn a_function(&self) -> Item {
        let align = Spec::AlignExpr(self.name(74), self.list([72, 73, 75]));
        let specs_of_k = self.specs([align, Spec::Basic(76)]);
        let k = self.declarator(Core::Name(77), self.none());
        let end = StmtKind::Return(Some(self.name(70)), self.list([69, 71]));
        let items = [
            BlockItem::Do(self.unlabelled(self.a_selection())),
            BlockItem::Do(self.a_labelled_loop()),
            BlockItem::Do(self.unlabelled(self.a_counted_loop())),
            BlockItem::Do(self.unlabelled(self.endless_loops())),
            BlockItem::Do(self.unlabelled(end)),
            BlockItem::Declare(self.declare(specs_of_k, k, 78)),
        ];
        let body = Block {
            items: self.list(items),
            marks: self.list([5, 79]),
        };
        Item::Define {
            specs: self.specs([Spec::Basic(0)]),
            declarator: Declarator::parameterless(self.alloc, 1, 2, 3, 4).expect(self.rt, "memory"),
            body,
        }
    }

    /// `if(a)b;else if(c);else{}`, from token 6 on.
    fn a_selection(&self) -> StmtKind {
        let then = self.unlabelled(StmtKind::Value(self.name(10), self.list([11])));
        let nothing = self.unlabelled(StmtKind::Empty(self.list([17])));
        let block = Block {
            items: self.none(),
            marks: self.list([19, 20]),
        };
        StmtKind::If {
            arms: self.list([(self.name(8), then), (self.name(15), nothing)]),
            other: Some(self.inner(StmtKind::Braced(block))),
            marks: self.list([6, 7, 9, 12, 13, 14, 16, 18]),
        }
    }

    /// `l:case a:default:do while(b)goto l;while(c);`, from token 21 on.
    fn a_labelled_loop(&self) -> Stmt {
        let jump = self.inner(StmtKind::Goto(34, self.list([33, 35])));
        let body = StmtKind::While(self.name(31), jump, self.list([29, 30, 32]));
        let labels = [
            Mark::Label(21, self.list([22])),
            Mark::Case(self.name(24), self.list([23, 25])),
            Mark::Default(26, self.list([27])),
        ];
        let marks = self.list([28, 36, 37, 39, 40]);
        Stmt {
            labels: self.list(labels),
            kind: StmtKind::DoWhile(self.inner(body), self.name(38), marks),
        }
    }

    /// `for(int i;a;b)switch(c)break;`, from token 41 on.
    fn a_counted_loop(&self) -> StmtKind {
        let stop = self.inner(StmtKind::Break(self.list([54, 55])));
        let choice = StmtKind::Switch(self.name(52), stop, self.list([50, 51, 53]));
        let specs = self.specs([Spec::Basic(43)]);
        let counter = self.declarator(Core::Name(44), self.none());
        StmtKind::For {
            init: self.boxed(ForInit::Declare(self.declare(specs, counter, 45))),
            cond: Some(self.boxed(self.name(46))),
            step: Some(self.boxed(self.name(48))),
            body: self.inner(choice),
            marks: self.list([41, 42, 47, 49]),
        }
    }

    /// `for(a;;)for(;;)continue;`, from token 56 on.
    fn endless_loops(&self) -> StmtKind {
        let nothing = ForInit::Nothing(self.list([64]));
        let again = StmtKind::Continue(self.list([67, 68]));
        let loops = self.endless(nothing, again, [62, 63, 65, 66]);
        let first = ForInit::Value(self.name(58), self.list([59]));
        self.endless(first, loops, [56, 57, 60, 61])
    }

    fn endless(&self, init: ForInit, body: StmtKind, marks: [u32; 4]) -> StmtKind {
        StmtKind::For {
            init: self.boxed(init),
            cond: None,
            step: None,
            body: self.inner(body),
            marks: self.list(marks),
        }
    }
}

#[test]
fn a_tree_spells_its_tokens_in_their_order(rt: HostRuntime) {
    use Slot::{AssignOp, Basic, BinaryOp, Literal, PrefixOp, Qualifier, RecordKey, SizeKey, Step};
    let trees = Trees {
        rt: &rt,
        alloc: rt.alloc(),
    };
    let words = [Basic, Basic, RecordKey, Basic, Qualifier];
    trees.assert_spells(trees.an_array(), AN_ARRAY, &words);
    let words = [
        Slot::Storage,
        Slot::Function,
        Qualifier,
        Basic,
        Slot::ArrayWord,
    ];
    trees.assert_spells(trees.an_enumeration(), AN_ENUMERATION, &words);
    let words = [
        AssignOp, PrefixOp, Basic, Step, BinaryOp, SizeKey, Basic, BinaryOp, Basic, Literal,
    ];
    trees.assert_spells(trees.an_assertion(), AN_ASSERTION, &words);
    let words = [Basic, Basic, Basic, Basic];
    trees.assert_spells(trees.a_function(), A_FUNCTION, &words);
}
