//! Sources with the lines of their syntax layers, written down from the rules.

/// Of a file of blanks.
pub(crate) const BLANK: &str = "node 0 METHOD NAME=<global> FILENAME=a.c LINE_NUMBER=1 ORDER=1\n\
    node 1 BLOCK LINE_NUMBER=1 ORDER=1\n\
    node 2 METHOD_RETURN LINE_NUMBER=1 ORDER=2 TYPE_FULL_NAME=void\n\
    edge 0 AST 1\n\
    edge 0 AST 2\n";

/// Of a file that the parser reads as `int f(void){}`.
const EMPTY: &str = "node 0 METHOD NAME=<global> FILENAME=a.c LINE_NUMBER=1 ORDER=1\n\
    node 1 BLOCK LINE_NUMBER=1 ORDER=1\n\
    node 2 METHOD NAME=f FILENAME=a.c LINE_NUMBER=1 ORDER=1\n\
    node 3 BLOCK LINE_NUMBER=1 ORDER=1\n\
    node 4 METHOD_RETURN LINE_NUMBER=1 ORDER=2 TYPE_FULL_NAME=int\n\
    node 5 METHOD_RETURN LINE_NUMBER=1 ORDER=2 TYPE_FULL_NAME=void\n\
    edge 0 AST 1\n\
    edge 0 AST 5\n\
    edge 1 AST 2\n\
    edge 2 AST 3\n\
    edge 2 AST 4\n";

/// Each source, as the file `a.c`, with its lines.
pub(crate) const LAYERS: [(&str, &str); 11] = [
    ("", BLANK),
    ("\t\n\x0B\x0C\r \n", BLANK),
    // What the parser does not keep changes no line.
    ("int f(void){}", EMPTY),
    ("/* a */ int f(void)<%%> // b", EMPTY),
    (
        "__extension__ int __attribute__((a)) f(void) __asm__(\"g\") {}",
        EMPTY,
    ),
    ("int f(void){}\n#pragma a", EMPTY),
    ("# 0 \"b.c\"\n# 1 \"a.c\" 2\nint f(void){}", EMPTY),
    // A function has the file and the line of its name, and its block those of its `{`.
    (
        "int\n# 7 \"x.c\"\nf(void)\n# 11 \"a.c\"\n{}",
        "node 0 METHOD NAME=<global> FILENAME=a.c LINE_NUMBER=1 ORDER=1\n\
        node 1 BLOCK LINE_NUMBER=1 ORDER=1\n\
        node 2 METHOD NAME=f FILENAME=x.c LINE_NUMBER=7 ORDER=1\n\
        node 3 BLOCK LINE_NUMBER=11 ORDER=1\n\
        node 4 METHOD_RETURN LINE_NUMBER=7 ORDER=2 TYPE_FULL_NAME=int\n\
        node 5 METHOD_RETURN LINE_NUMBER=1 ORDER=2 TYPE_FULL_NAME=void\n\
        edge 0 AST 1\n\
        edge 0 AST 5\n\
        edge 1 AST 2\n\
        edge 2 AST 3\n\
        edge 2 AST 4\n",
    ),
    // An assignment has its target and its value as arguments.
    (
        "int f(void){x=1;}",
        "node 0 METHOD NAME=<global> FILENAME=a.c LINE_NUMBER=1 ORDER=1\n\
        node 1 BLOCK LINE_NUMBER=1 ORDER=1\n\
        node 2 METHOD NAME=f FILENAME=a.c LINE_NUMBER=1 ORDER=1\n\
        node 3 BLOCK LINE_NUMBER=1 ORDER=1\n\
        node 4 CALL NAME=<operator>.assignment LINE_NUMBER=1 ORDER=1\n\
        node 5 IDENTIFIER NAME=x LINE_NUMBER=1 ORDER=1 ARGUMENT_INDEX=1\n\
        node 6 LITERAL CODE=1 LINE_NUMBER=1 ORDER=2 ARGUMENT_INDEX=2\n\
        node 7 METHOD_RETURN LINE_NUMBER=1 ORDER=2 TYPE_FULL_NAME=int\n\
        node 8 METHOD_RETURN LINE_NUMBER=1 ORDER=2 TYPE_FULL_NAME=void\n\
        edge 0 AST 1\n\
        edge 0 AST 8\n\
        edge 1 AST 2\n\
        edge 2 AST 3\n\
        edge 2 AST 7\n\
        edge 3 AST 4\n\
        edge 4 AST 5\n\
        edge 4 AST 6\n\
        edge 4 ARGUMENT 5\n\
        edge 4 ARGUMENT 6\n",
    ),
    // The operands of `b + c + 7` are grouped to the left, and a `CALL` has the line of the first
    // token of its construct.
    (
        "int\nf(void)\n{\n  a\n    = b\n    + c + 7;\n  d;\n}\n",
        "node 0 METHOD NAME=<global> FILENAME=a.c LINE_NUMBER=1 ORDER=1\n\
        node 1 BLOCK LINE_NUMBER=1 ORDER=1\n\
        node 2 METHOD NAME=f FILENAME=a.c LINE_NUMBER=2 ORDER=1\n\
        node 3 BLOCK LINE_NUMBER=3 ORDER=1\n\
        node 4 CALL NAME=<operator>.assignment LINE_NUMBER=4 ORDER=1\n\
        node 5 IDENTIFIER NAME=a LINE_NUMBER=4 ORDER=1 ARGUMENT_INDEX=1\n\
        node 6 CALL NAME=<operator>.addition LINE_NUMBER=5 ORDER=2 ARGUMENT_INDEX=2\n\
        node 7 CALL NAME=<operator>.addition LINE_NUMBER=5 ORDER=1 ARGUMENT_INDEX=1\n\
        node 8 IDENTIFIER NAME=b LINE_NUMBER=5 ORDER=1 ARGUMENT_INDEX=1\n\
        node 9 IDENTIFIER NAME=c LINE_NUMBER=6 ORDER=2 ARGUMENT_INDEX=2\n\
        node 10 LITERAL CODE=7 LINE_NUMBER=6 ORDER=2 ARGUMENT_INDEX=2\n\
        node 11 IDENTIFIER NAME=d LINE_NUMBER=7 ORDER=2\n\
        node 12 METHOD_RETURN LINE_NUMBER=2 ORDER=2 TYPE_FULL_NAME=int\n\
        node 13 METHOD_RETURN LINE_NUMBER=1 ORDER=2 TYPE_FULL_NAME=void\n\
        edge 0 AST 1\n\
        edge 0 AST 13\n\
        edge 1 AST 2\n\
        edge 2 AST 3\n\
        edge 2 AST 12\n\
        edge 3 AST 4\n\
        edge 3 AST 11\n\
        edge 4 AST 5\n\
        edge 4 AST 6\n\
        edge 4 ARGUMENT 5\n\
        edge 4 ARGUMENT 6\n\
        edge 6 AST 7\n\
        edge 6 AST 10\n\
        edge 6 ARGUMENT 7\n\
        edge 6 ARGUMENT 10\n\
        edge 7 AST 8\n\
        edge 7 AST 9\n\
        edge 7 ARGUMENT 8\n\
        edge 7 ARGUMENT 9\n",
    ),
    // The value of an assignment may be an assignment: they are grouped to the right.
    (
        "int f(void){a=b=1+c;}",
        "node 0 METHOD NAME=<global> FILENAME=a.c LINE_NUMBER=1 ORDER=1\n\
        node 1 BLOCK LINE_NUMBER=1 ORDER=1\n\
        node 2 METHOD NAME=f FILENAME=a.c LINE_NUMBER=1 ORDER=1\n\
        node 3 BLOCK LINE_NUMBER=1 ORDER=1\n\
        node 4 CALL NAME=<operator>.assignment LINE_NUMBER=1 ORDER=1\n\
        node 5 IDENTIFIER NAME=a LINE_NUMBER=1 ORDER=1 ARGUMENT_INDEX=1\n\
        node 6 CALL NAME=<operator>.assignment LINE_NUMBER=1 ORDER=2 ARGUMENT_INDEX=2\n\
        node 7 IDENTIFIER NAME=b LINE_NUMBER=1 ORDER=1 ARGUMENT_INDEX=1\n\
        node 8 CALL NAME=<operator>.addition LINE_NUMBER=1 ORDER=2 ARGUMENT_INDEX=2\n\
        node 9 LITERAL CODE=1 LINE_NUMBER=1 ORDER=1 ARGUMENT_INDEX=1\n\
        node 10 IDENTIFIER NAME=c LINE_NUMBER=1 ORDER=2 ARGUMENT_INDEX=2\n\
        node 11 METHOD_RETURN LINE_NUMBER=1 ORDER=2 TYPE_FULL_NAME=int\n\
        node 12 METHOD_RETURN LINE_NUMBER=1 ORDER=2 TYPE_FULL_NAME=void\n\
        edge 0 AST 1\n\
        edge 0 AST 12\n\
        edge 1 AST 2\n\
        edge 2 AST 3\n\
        edge 2 AST 11\n\
        edge 3 AST 4\n\
        edge 4 AST 5\n\
        edge 4 AST 6\n\
        edge 4 ARGUMENT 5\n\
        edge 4 ARGUMENT 6\n\
        edge 6 AST 7\n\
        edge 6 AST 8\n\
        edge 6 ARGUMENT 7\n\
        edge 6 ARGUMENT 8\n\
        edge 8 AST 9\n\
        edge 8 AST 10\n\
        edge 8 ARGUMENT 9\n\
        edge 8 ARGUMENT 10\n",
    ),
];
