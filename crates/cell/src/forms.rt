// The opcode list, a page to lay beside the specification: under its four headings the form of every opcode from 0 to 255, and the mnemonic of
// each that is legal. Opcode 2, of which the specification says nothing, is reserved.
use crate::Form;
use crate::Form::{Immediate, Registers, Reserved};

// The forms, in opcode order.
pub(crate) static FORMS: [Form; 256] = [
    // Data transfer, 0 to 15.
    Registers, //   0 CPSWP
    Registers, //   1 LDST
    Reserved, //    2
    Immediate, //   3 LDLI
    Immediate, //   4 LDUI
    Immediate, //   5 LDLIZ
    Immediate, //   6 LDLISE
    Immediate, //   7 LDLIF
    Reserved, //    8
    Reserved, //    9
    Reserved, //   10
    Reserved, //   11
    Reserved, //   12
    Reserved, //   13
    Reserved, //   14
    Reserved, //   15

    // Integer arithmetic, 16 to 79.
    Registers, //  16 ADD
    Registers, //  17 ADC
    Registers, //  18 SUB
    Registers, //  19 SBB
    Registers, //  20 MUL
    Registers, //  21 UDIV
    Registers, //  22 SDIV
    Registers, //  23 MOD
    Registers, //  24 AND
    Registers, //  25 OR
    Registers, //  26 XOR
    Registers, //  27 NAND
    Registers, //  28 LNAND
    Registers, //  29 LSH
    Registers, //  30 URSH
    Registers, //  31 SRSH
    Registers, //  32 UGT
    Registers, //  33 SGT
    Registers, //  34 EQ
    Immediate, //  35 ADDI
    Immediate, //  36 ADCI
    Immediate, //  37 SUBI
    Immediate, //  38 SBBI
    Immediate, //  39 MULI
    Immediate, //  40 UDIVI
    Immediate, //  41 SDIVI
    Immediate, //  42 MODI
    Immediate, //  43 ANDI
    Immediate, //  44 ORI
    Immediate, //  45 XORI
    Immediate, //  46 LSHI
    Immediate, //  47 URSHI
    Immediate, //  48 SRSHI
    Immediate, //  49 UGTI
    Immediate, //  50 SGTI
    Immediate, //  51 EQI
    Immediate, //  52 ULTI
    Immediate, //  53 SLTI
    Registers, //  54 SPLIT
    Reserved, //   55
    Reserved, //   56
    Reserved, //   57
    Reserved, //   58
    Reserved, //   59
    Reserved, //   60
    Reserved, //   61
    Reserved, //   62
    Reserved, //   63
    Reserved, //   64
    Reserved, //   65
    Reserved, //   66
    Reserved, //   67
    Reserved, //   68
    Reserved, //   69
    Reserved, //   70
    Reserved, //   71
    Reserved, //   72
    Reserved, //   73
    Reserved, //   74
    Reserved, //   75
    Reserved, //   76
    Reserved, //   77
    Reserved, //   78
    Reserved, //   79

    // Floating-point arithmetic, 80 to 120.
    Registers, //  80 FADD
    Registers, //  81 FSUB
    Registers, //  82 FMUL
    Registers, //  83 FDIV
    Registers, //  84 FMOD
    Registers, //  85 FEXP
    Registers, //  86 FLOG
    Registers, //  87 FSIN
    Registers, //  88 FASIN
    Registers, //  89 FGT
    Registers, //  90 FEQ
    Registers, //  91 I2F
    Registers, //  92 F2I
    Immediate, //  93 FADDI
    Immediate, //  94 FSUBI
    Immediate, //  95 FMULI
    Immediate, //  96 FDIVI
    Immediate, //  97 FMODI
    Immediate, //  98 FEXPI
    Immediate, //  99 FLOGI
    Immediate, // 100 FSINI
    Immediate, // 101 FASINI
    Immediate, // 102 FGTI
    Immediate, // 103 FEQI
    Immediate, // 104 FLTI
    Immediate, // 105 II2F
    Immediate, // 106 IF2I
    Registers, // 107 FSPLIT
    Reserved, //  108
    Reserved, //  109
    Reserved, //  110
    Reserved, //  111
    Reserved, //  112
    Reserved, //  113
    Reserved, //  114
    Reserved, //  115
    Reserved, //  116
    Reserved, //  117
    Reserved, //  118
    Reserved, //  119
    Reserved, //  120

    // Control flow and the rest, 121 to 255.
    Immediate, // 121 BZ
    Immediate, // 122 INT
    Reserved, //  123
    Reserved, //  124
    Reserved, //  125
    Reserved, //  126
    Reserved, //  127
    Reserved, //  128
    Reserved, //  129
    Reserved, //  130
    Reserved, //  131
    Reserved, //  132
    Reserved, //  133
    Reserved, //  134
    Reserved, //  135
    Reserved, //  136
    Reserved, //  137
    Reserved, //  138
    Reserved, //  139
    Reserved, //  140
    Reserved, //  141
    Reserved, //  142
    Reserved, //  143
    Reserved, //  144
    Reserved, //  145
    Reserved, //  146
    Reserved, //  147
    Reserved, //  148
    Reserved, //  149
    Reserved, //  150
    Reserved, //  151
    Reserved, //  152
    Reserved, //  153
    Reserved, //  154
    Reserved, //  155
    Reserved, //  156
    Reserved, //  157
    Reserved, //  158
    Reserved, //  159
    Reserved, //  160
    Reserved, //  161
    Reserved, //  162
    Reserved, //  163
    Reserved, //  164
    Reserved, //  165
    Reserved, //  166
    Reserved, //  167
    Reserved, //  168
    Reserved, //  169
    Reserved, //  170
    Reserved, //  171
    Reserved, //  172
    Reserved, //  173
    Reserved, //  174
    Reserved, //  175
    Reserved, //  176
    Reserved, //  177
    Reserved, //  178
    Reserved, //  179
    Reserved, //  180
    Reserved, //  181
    Reserved, //  182
    Reserved, //  183
    Reserved, //  184
    Reserved, //  185
    Reserved, //  186
    Reserved, //  187
    Reserved, //  188
    Reserved, //  189
    Reserved, //  190
    Reserved, //  191
    Reserved, //  192
    Reserved, //  193
    Reserved, //  194
    Reserved, //  195
    Reserved, //  196
    Reserved, //  197
    Reserved, //  198
    Reserved, //  199
    Reserved, //  200
    Reserved, //  201
    Reserved, //  202
    Reserved, //  203
    Reserved, //  204
    Reserved, //  205
    Reserved, //  206
    Reserved, //  207
    Reserved, //  208
    Reserved, //  209
    Reserved, //  210
    Reserved, //  211
    Reserved, //  212
    Reserved, //  213
    Reserved, //  214
    Reserved, //  215
    Reserved, //  216
    Reserved, //  217
    Reserved, //  218
    Reserved, //  219
    Reserved, //  220
    Reserved, //  221
    Reserved, //  222
    Reserved, //  223
    Reserved, //  224
    Reserved, //  225
    Reserved, //  226
    Reserved, //  227
    Reserved, //  228
    Reserved, //  229
    Reserved, //  230
    Reserved, //  231
    Reserved, //  232
    Reserved, //  233
    Reserved, //  234
    Reserved, //  235
    Reserved, //  236
    Reserved, //  237
    Reserved, //  238
    Reserved, //  239
    Reserved, //  240
    Reserved, //  241
    Reserved, //  242
    Reserved, //  243
    Reserved, //  244
    Reserved, //  245
    Reserved, //  246
    Reserved, //  247
    Reserved, //  248
    Reserved, //  249
    Reserved, //  250
    Reserved, //  251
    Reserved, //  252
    Reserved, //  253
    Reserved, //  254
    Reserved, //  255
];
